// The condition that a shape fits into a box.
ghost use Rattle.std.specs.Prelude.{◌≡◌, ℤ};
ghost use Rattle.lattice.specs.declared.cell.Cell.{Cell as CellValue};
ghost use Rattle.shapes.specs.Shapes.{shape_cells};
ghost use Rattle.sources.specs.Conditions.{extent as extent_of, fits};

use crate::condition::Condition;
use lattice::cell::Cell;
use shapes::entry::Entry;
use shapes::shape::Shape;

// A box of w by h by d cells, measured on the listed member: its greatest minus its least coordinate plus 1 is at most w in a, h in b and d in c.
#[derive(Clone, Copy, PartialEq, Eq, Debug)]
pub struct BoundingBox {
    pub w: u8,
    pub h: u8,
    pub d: u8,
}

// The greatest coordinate minus the least, plus 1.
fn extent<F: Fn(Cell) -> i8>(shape: &Shape, along: F) -> i16
    requires { F.IsAlwaysCallable along }
    ensures { (f : CellValue → ℤ) → ((x : CellValue) (z : ℤ) → F.post along x z → z ≡ f x) → result ≡ extent_of f (shape_cells shape.now) }
{
    let cells = shape.cells();
    let mut least = along(cells[0]);
    let mut greatest = least;
    // not two chains with max() and min(): that they may call `along` at each turn was tried, and did not close
    for cell in cells {
        let x = along(*cell);
        least = least.min(x);
        greatest = greatest.max(x);
    }
    i16::from(greatest) - i16::from(least) + 1
}

impl Condition for BoundingBox {
    ghost passing = { λ b e. fits b.w b.h b.d e };

    fn passes(&self, entry: &Entry) -> bool {
        extent(&entry.shape, |cell| cell.a) <= i16::from(self.w)
            && extent(&entry.shape, |cell| cell.b) <= i16::from(self.h)
            && extent(&entry.shape, |cell| cell.c) <= i16::from(self.d)
    }
}
