// Making a shape, and looking at its cells.
ghost use Rattle.std.specs.Prelude.{◌≡◌, [], ◌∷◌, map, length};
ghost use Rattle.std.proofs.Common.{rules};
ghost use Rattle.lattice.specs.declared.cell.Cell.{Cell as CellValue};
ghost use Rattle.lattice.specs.Cells.{origin};
ghost use Rattle.lattice.specs.Refusals.{refusal_number};
ghost use Rattle.shapes.specs.Faults.{fault_number, fault_place, follows as in_order, cell_fault, unless, shape_or_fault};
ghost use Rattle.shapes.specs.Shapes.{shape_cells, made as made_shape, wide, zeros, if_in_reach};

use crate::coordinates::Coordinates;
use crate::shape::Shape;
use crate::shape_fault::ShapeFault;
use lattice::cell::Cell;
use lattice::refusal::Refusal;
use ordered::array_list::ArrayList;
use ordered::filler::Filler;

// The most cells that a shape has.
pub const MOST_CELLS: usize = 16;

impl From<ShapeFault> for Refusal {
    ghost from_gives = { λ f e. refusal_number e ≡ fault_number f };

    fn from(fault: ShapeFault) -> Refusal {
        match fault {
            ShapeFault::Count => Refusal::Size,
            ShapeFault::Reach(_) => Refusal::Reach,
            ShapeFault::Order(_) => Refusal::Order,
        }
    }
}

impl ShapeFault {
    // The place of the cell at fault, counted from 0; 0 for the count.
    pub fn place(self) -> usize
        ensures { result ≡ fault_place self }
    {
        match self {
            ShapeFault::Count => 0,
            ShapeFault::Reach(place) => place,
            ShapeFault::Order(place) => place,
        }
    }
}

impl Filler for Coordinates {
    ghost blank = { zeros };

    ghost by_default = { Prim.search rules };
}

// What says where a cell is to be: a cell, or coordinates that may be those of none. It is no `Into<Coordinates>`: what that promises is
// a relation, and with it the proof of `admit_all` did not close.
trait Locates: Copy {
    ghost located: { Self → CellValue };

    fn coordinates(self) -> Coordinates
        ensures { wide result ≡ located self };
}

impl Locates for Coordinates {
    ghost located = { wide };

    fn coordinates(self) -> Coordinates {
        self
    }
}

impl Locates for Cell {
    ghost located = { λ x. x };

    fn coordinates(self) -> Coordinates {
        Coordinates {
            a: i16::from(self.a),
            b: i16::from(self.b),
            c: i16::from(self.c),
        }
    }
}

// The cell with these coordinates, if there is one and it is in reach.
fn in_bounds(x: Coordinates) -> Option<Cell>
    ensures { result ≡ if_in_reach (wide x) }
{
    let cell = Cell {
        a: i8::try_from(x.a).ok()?,
        b: i8::try_from(x.b).ok()?,
        c: i8::try_from(x.c).ok()?,
    };
    cell.is_in_reach().then_some(cell)
}

// The cell is the origin if it is the first, and otherwise greater than the one before.
fn follows(before: Option<Cell>, x: Cell) -> bool
    ensures { result ≡ in_order before x }
{
    match before {
        None => x == Cell::ORIGIN,
        Some(y) => y < x,
    }
}

// The cell with these coordinates, at a place of a shape behind the cell before it; or what is wrong with it.
// Every test of a cell of a shape is this one.
pub fn admit(place: usize, before: Option<Cell>, x: Coordinates) -> Result<Cell, ShapeFault>
    ensures { result ≡ unless (wide x) (cell_fault place before (wide x)) }
{
    let cell = in_bounds(x).ok_or(ShapeFault::Reach(place))?;
    if follows(before, cell) {
        Ok(cell)
    } else {
        Err(ShapeFault::Order(place))
    }
}

// The shape with the cells that have these coordinates, or the first fault.
fn admit_all<T: Locates>(places: &[T]) -> Result<Shape, ShapeFault>
    ensures { made_shape result ≡ shape_or_fault (map T.located places.now) }
{
    if places.is_empty() || places.len() > MOST_CELLS {
        return Err(ShapeFault::Count);
    }
    let mut cells = ArrayList::new();
    let mut before = None;
    for (place, x) in places.iter().enumerate() {
        let cell = admit(place, before, x.coordinates())?;
        cells.push(cell).unwrap();
        before = Some(cell);
    }
    Ok(Shape { cells })
}

impl Shape {
    // The shape with exactly these cells, or the first fault.
    pub fn new(cells: &[Cell]) -> Result<Shape, ShapeFault>
        ensures { made_shape result ≡ shape_or_fault cells.now }
    {
        admit_all(cells)
    }

    // The same of coordinates.
    pub fn from_coordinates(coordinates: &[Coordinates]) -> Result<Shape, ShapeFault>
        ensures { made_shape result ≡ shape_or_fault (map wide coordinates.now) }
    {
        admit_all(coordinates)
    }

    // (0,0,0) alone.
    pub fn single() -> Shape
        ensures { shape_cells result ≡ origin ∷ [] }
    {
        let mut cells = ArrayList::new();
        cells.push(Cell::ORIGIN).unwrap();
        Shape { cells }
    }

    pub fn cells(&self) -> &[Cell]
        ensures { result.now ≡ shape_cells self.now }
    {
        self.cells.as_slice()
    }

    // How many cells it has.
    pub fn size(&self) -> usize
        ensures { result ≡ length (shape_cells self.now) }
    {
        self.cells().len()
    }
}
