// The lister over any lattice.
use lattice::lattice::Lattice;
use lattice::motion_set::MotionSet;
use walk::pick_list::PickList;
use walk::search::Search;

// A search through all pick lists of the size, of which those are handed out whose shape is the least of its class under the set of motions.
// `last` is the pick list of the last one; empty before the first.
#[derive(Drop)]
pub struct Lister<L: Lattice> {
    pub(crate) lattice: L,
    pub(crate) set: MotionSet,
    pub(crate) search: Search,
    pub(crate) last: PickList,
}
