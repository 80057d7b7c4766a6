// The matrix of a motion.
ghost use Rattle.std.specs.Prelude.{◌≡◌};
ghost use Rattle.lattice.specs.Rows.{matrix_of, matrix_under};

use crate::cell::Cell;
use crate::lattice::Lattice;
use crate::rows::Rows;

// The matrix of a motion; all zeros for a number beyond the count.
pub fn matrix<L: Lattice>(lattice: &L, motion: u8) -> Rows
    ensures { matrix_of result ≡ matrix_under (L.motions lattice.now) motion }
{
    // The images of the cells next to the origin are the columns. The rows are written out: the nine entries are nine fields, and no call is shorter.
    let x = lattice.image(motion, Cell { a: 1, b: 0, c: 0 });
    let y = lattice.image(motion, Cell { a: 0, b: 1, c: 0 });
    let z = lattice.image(motion, Cell { a: 0, b: 0, c: 1 });
    Rows {
        to_a: Cell {
            a: x.a,
            b: y.a,
            c: z.a,
        },
        to_b: Cell {
            a: x.b,
            b: y.b,
            c: z.b,
        },
        to_c: Cell {
            a: x.c,
            b: y.c,
            c: z.c,
        },
    }
}
