// Entries for callers.
ghost use Rattle.std.specs.Prelude.{◌≡◌, [], ◌∷◌};
ghost use Rattle.lattice.specs.Cells.{origin};
ghost use Rattle.shapes.specs.Entries.{values, entry_values};

use crate::entry::Entry;
use crate::shape::Shape;
use lattice::motion_set::MotionSet;

impl Entry {
    // The single cell (0,0,0), motion 0 alone, and one member: an entry to be written over, of no lattice in particular.
    pub fn blank() -> Entry
        ensures { entry_values result ≡ values (origin ∷ []) (0 ∷ []) 1 }
    {
        Entry {
            shape: Shape::single(),
            stabiliser: MotionSet::identity(),
            orbit_size: 1,
        }
    }
}
