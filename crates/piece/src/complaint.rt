// Why a line is refused, in words.
ghost use Rattle.std.specs.Prelude.{◌≡◌};
ghost use Rattle.piece.specs.declared.complaint.Complaint.TheVariants.{Shape as no_shape};

use shapes::shape_fault::ShapeFault;
use std::fmt;

#[derive(Clone, Copy)]
pub enum Complaint {
    Form(Field),
    Name,
    Kind,
    Shape(ShapeFault),
}

impl From<ShapeFault> for Complaint {
    ghost from_gives = { λ e r. r ≡ no_shape e };

    fn from(fault: ShapeFault) -> Complaint {
        Complaint::Shape(fault)
    }
}

// The part of the line that is not in its form.
#[derive(Clone, Copy)]
pub enum Field {
    Line,
    Name,
    Kind,
    Cells,
    Cell(usize),
    Surplus,
}

impl fmt::Display for Complaint {
    fn fmt<W: fmt::Write>(&self, f: &mut fmt::Formatter<W>) -> fmt::Result {
        match *self {
            Complaint::Form(field) => write!(f, "refused (9): {field}"),
            Complaint::Name => write!(
                f,
                "refused (3): no lattice has this name; the known names are square, hex and cubic"
            ),
            Complaint::Kind => write!(
                f,
                "refused (2): no kind has this word; the kinds are fixed, one-sided and free"
            ),
            Complaint::Shape(ShapeFault::Count) => write!(
                f,
                "refused (1): a piece has 1 to 16 cells"
            ),
            Complaint::Shape(ShapeFault::Reach(place)) => {
                write!(
                    f,
                    "refused (4): a coordinate of cell {place} is outside -15 to 15 (cells count from 0)"
                )
            }
            Complaint::Shape(ShapeFault::Order(0)) => write!(f, "refused (5): cell 0 is not 0,0,0"),
            Complaint::Shape(ShapeFault::Order(place)) => {
                write!(
                    f,
                    "refused (5): cell {place} is not greater than the one before (cells count from 0)"
                )
            }
        }
    }
}

impl fmt::Display for Field {
    fn fmt<W: fmt::Write>(&self, f: &mut fmt::Formatter<W>) -> fmt::Result {
        match *self {
            Field::Line => write!(f, "the line is empty, too long or has no end"),
            Field::Name => write!(f, "field 1, the lattice's name, is missing or empty"),
            Field::Kind => write!(f, "field 2, the kind, is missing or empty"),
            Field::Cells => write!(f, "field 3, the cells, is missing or empty"),
            Field::Cell(place) => write!(
                f,
                "in field 3, cell {place} is not in the form 0,0,0 (cells count from 0)"
            ),
            Field::Surplus => write!(f, "there is a field too many"),
        }
    }
}
