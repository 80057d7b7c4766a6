// Copying the directions of a lattice.
ghost use Rattle.std.specs.Prelude.{◌≡◌};
ghost use Rattle.walk.specs.PlaceLists.{directions_in};

use crate::direction_list::DirectionList;
use lattice::lattice::Lattice;
use ordered::array_list::ArrayList;

impl DirectionList {
    pub(crate) fn of<L: Lattice>(lattice: &L) -> DirectionList
        ensures { directions_in result ≡ L.directions lattice.now }
    {
        let mut cells = ArrayList::new();
        for k in 0..lattice.direction_count() {
            cells.push(lattice.direction(k)).unwrap();
        }
        DirectionList { cells }
    }
}
