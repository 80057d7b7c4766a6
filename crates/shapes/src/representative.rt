// The least member of a connected shape.
ghost use Rattle.std.specs.Prelude.{◌≡◌, ◌<◌, length, if◌then◌else◌};
ghost use Rattle.std.specs.Option.{option_map};
ghost use Rattle.lattice.specs.Cells.{origin};
ghost use Rattle.lattice.specs.Kinds.{set_motions};
ghost use Rattle.shapes.specs.Classes.{cells_less, moved};
ghost use Rattle.shapes.specs.Connected.{Connected};
ghost use Rattle.shapes.specs.Positions.{neighbours};
ghost use Rattle.shapes.specs.Representatives.{least_if_connected};
ghost use Rattle.shapes.specs.Shapes.{shape_cells};

use crate::flooding::is_connected;
use crate::images::member;
use crate::shape::Shape;
use lattice::lattice::Lattice;
use lattice::motion_set::MotionSet;
use ordered::compare::compare;

// The member of the shape under the motion, if it is less than the least so far.
fn lesser<L: Lattice>(lattice: &L, motion: u8, shape: &Shape, least: Shape) -> Shape
    requires joined { Connected (neighbours (L.directions lattice.now)) origin (shape_cells shape.now) }
    requires known { motion < length (L.motions lattice.now) }
    ensures { shape_cells result ≡ (if cells_less (moved (L.motions lattice.now) motion (shape_cells shape.now)) (shape_cells least) then moved (L.motions lattice.now) motion (shape_cells shape.now) else shape_cells least) }
{
    let placed = member(lattice, motion, shape);
    if !compare(placed.cells(), least.cells()).is_lt() {
        return least;
    }
    Shape::new(placed.cells()).unwrap_or(least)
}

// Lattice and set stay two parameters: one value of both would have to own the lattice, since today's prover does not state that a reference to a lattice is one.
// The least member under the motions of a set that the lattice has. None if the shape is not connected.
pub fn least_member<L: Lattice>(lattice: &L, set: &MotionSet, shape: &Shape) -> Option<Shape>
    ensures { option_map shape_cells result ≡ least_if_connected (L.directions lattice.now) (L.motions lattice.now) (set_motions set.now) (shape_cells shape.now) }
{
    if !is_connected(lattice, shape) {
        return None;
    }
    let mut least = *shape;
    for motion in set.as_slice() {
        if *motion < lattice.motion_count() {
            least = lesser(lattice, *motion, shape, least);
        }
    }
    Some(least)
}
