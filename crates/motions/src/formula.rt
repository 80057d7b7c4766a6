// What a motion does to (a, b, c), in letters.
use lattice::cell::Cell;
use lattice::rows::Rows;
use std::fmt;

#[derive(Clone, Copy)]
pub struct Formula(pub Rows);

impl fmt::Display for Formula {
    fn fmt<W: fmt::Write>(&self, f: &mut fmt::Formatter<W>) -> fmt::Result {
        let to_a = Sum(self.0.to_a);
        let to_b = Sum(self.0.to_b);
        let to_c = Sum(self.0.to_c);
        write!(f, "({to_a}, {to_b}, {to_c})")
    }
}

// One coordinate of the image, as `-b` or `a+b`.
#[derive(Clone, Copy)]
struct Sum(Cell);

impl fmt::Display for Sum {
    fn fmt<W: fmt::Write>(&self, f: &mut fmt::Formatter<W>) -> fmt::Result {
        if self.0 == Cell::ORIGIN {
            return write!(f, "0");
        }
        let Cell { a, b, c } = self.0;
        let terms = [(a, 'a'), (b, 'b'), (c, 'c')];
        let written = terms.iter().filter(|(factor, _)| *factor != 0);
        for (place, (factor, letter)) in written.enumerate() {
            let term = Term {
                first: place == 0,
                factor: *factor,
                letter: *letter,
            };
            write!(f, "{term}")?;
        }
        Ok(())
    }
}

// A factor and its letter, behind a plus where that must stand.
#[derive(Clone, Copy)]
struct Term {
    first: bool,
    factor: i8,
    letter: char,
}

impl fmt::Display for Term {
    fn fmt<W: fmt::Write>(&self, f: &mut fmt::Formatter<W>) -> fmt::Result {
        let Term {
            first,
            factor,
            letter,
        } = *self;
        match factor {
            1 if first => write!(f, "{letter}"),
            1 => write!(f, "+{letter}"),
            -1 => write!(f, "-{letter}"),
            _ if first => write!(f, "{factor}{letter}"),
            _ => write!(f, "{factor:+}{letter}"),
        }
    }
}
