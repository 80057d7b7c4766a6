// A list of at most 16 cells, such as an image in normal position, which may be out of a shape's reach.
use lattice::cell::Cell;
use ordered::array_list::ArrayList;

#[derive(Clone, Copy, Default)]
pub struct Placement {
    pub(crate) cells: ArrayList<Cell, 16>,
}
