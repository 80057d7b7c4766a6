// The motion that undoes another.
ghost use Rattle.std.specs.Prelude.{◌≡◌, ◌<◌, length};
ghost use Rattle.lattice.specs.declared.cell.Cell.{Cell};
ghost use Rattle.lattice.specs.Matrices.{image as carry};
ghost use Rattle.lattice.specs.Lattices.{motion as numbered, inverse_number};

use crate::lattice::Lattice;

// The lowest number h for which "h after motion" is motion 0: it takes every cell back. 0 for a number beyond the count.
pub fn inverse<L: Lattice>(lattice: &L, motion: u8) -> u8
    ensures value { result ≡ inverse_number (L.motions lattice.now) motion }
    ensures undoes { motion < length (L.motions lattice.now) → (x : Cell) → carry (numbered (L.motions lattice.now) result) (carry (numbered (L.motions lattice.now) motion) x) ≡ x }
{
    (0..lattice.motion_count())
        .find(|h| lattice.after(*h, motion) == 0)
        .unwrap_or(0)
}
