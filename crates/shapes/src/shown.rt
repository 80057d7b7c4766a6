// Cells and numbers in print.
ghost use Rattle.shapes.specs.Prints.{spaced, shape_text};

use crate::shape::Shape;
use std::fmt;

// Items, parted by spaces.
#[derive(Clone, Copy)]
pub struct Spaced<'a, T>(pub &'a [T]);

impl<T: fmt::Display> fmt::Display for Spaced<'_, T> {
    ghost output = { λ s. spaced T.output s.0.now };

    fn fmt<W: fmt::Write>(&self, f: &mut fmt::Formatter<W>) -> fmt::Result {
        let Some((first, rest)) = self.0.split_first() else {
            return Ok(());
        };
        write!(f, "{first}")?;
        for item in rest {
            write!(f, " {item}")?;
        }
        Ok(())
    }
}

// Its cells as a text has them: `0,0,0 1,0,0`.
impl fmt::Display for Shape {
    ghost output = { shape_text };

    fn fmt<W: fmt::Write>(&self, f: &mut fmt::Formatter<W>) -> fmt::Result {
        let cells = Spaced(self.cells());
        write!(f, "{cells}")
    }
}
