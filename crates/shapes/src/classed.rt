// The entry of a shape's class.
ghost use Rattle.std.specs.Prelude.{◌≡◌};
ghost use Rattle.std.specs.Option.{option_map};
ghost use Rattle.lattice.specs.Kinds.{set_motions};
ghost use Rattle.shapes.specs.Entries.{entry_values, entry_if_connected};
ghost use Rattle.shapes.specs.Shapes.{shape_cells};

use crate::entry::Entry;
use crate::representative::least_member;
use crate::shape::Shape;
use crate::symmetry::{orbit_size, stabiliser};
use lattice::lattice::Lattice;
use lattice::motion_set::MotionSet;

// Lattice and set stay two parameters: one value of both would have to own the lattice, since today's prover does not state that a reference to a lattice is one.
// The least member of the shape with its stabiliser and orbit size, under the motions of a set that the lattice has.
// None if the shape is not connected.
pub fn entry_of<L: Lattice>(lattice: &L, set: &MotionSet, shape: &Shape) -> Option<Entry>
    ensures { option_map entry_values result ≡ entry_if_connected (L.directions lattice.now) (L.motions lattice.now) (set_motions set.now) (shape_cells shape.now) }
{
    least_member(lattice, set, shape).map(|least| Entry {
        shape: least,
        stabiliser: stabiliser(lattice, set, &least),
        orbit_size: orbit_size(lattice, set, &least),
    })
}
