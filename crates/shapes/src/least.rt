// Whether a shape is the least of its members.
ghost use Rattle.std.specs.Prelude.{◌≡◌, ◌&&◌, length, nat_lt};
ghost use Rattle.lattice.specs.Kinds.{set_motions, Closed};
ghost use Rattle.shapes.specs.Classes.{same_cells, cells_less, moved, least_member as least_cells};
ghost use Rattle.shapes.specs.Members.{usable};
ghost use Rattle.shapes.specs.Shapes.{shape_cells};

use crate::images::member;
use crate::shape::Shape;
use lattice::lattice::Lattice;
use lattice::motion_set::MotionSet;
use ordered::compare::compare;

// Whether a motion of the lattice makes a lesser member. Motion 0 makes the shape itself.
fn makes_less<L: Lattice>(lattice: &L, motion: u8, shape: &Shape) -> bool
    ensures { result ≡ (nat_lt motion (length (L.motions lattice.now)) && cells_less (moved (L.motions lattice.now) motion (shape_cells shape.now)) (shape_cells shape.now)) }
{
    if motion == 0 {
        return false;
    }
    motion < lattice.motion_count()
        && compare(member(lattice, motion, shape).cells(), shape.cells()).is_lt()
}

// Lattice and set stay two parameters: one value of both would have to own the lattice, since today's prover does not state that a reference to a lattice is one.
// Whether the shape is its own least member under the motions of a set that the lattice has.
// It takes the motions ascending, and stops at the first image that is less.
pub fn is_least<L: Lattice>(lattice: &L, set: &MotionSet, shape: &Shape) -> bool
    ensures value { result ≡ same_cells (least_cells (L.motions lattice.now) (usable (L.motions lattice.now) (set_motions set.now)) (shape_cells shape.now)) (shape_cells shape.now) }
    ensures closed { Closed (L.motions lattice.now) (set_motions set.now) → result ≡ same_cells (least_cells (L.motions lattice.now) (set_motions set.now) (shape_cells shape.now)) (shape_cells shape.now) }
{
    for motion in set.as_slice() {
        if makes_less(lattice, *motion, shape) {
            return false;
        }
    }
    true
}
