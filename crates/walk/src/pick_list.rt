// The pick list of a connected shape.
use ordered::array_list::ArrayList;

#[derive(Clone, Copy)]
pub struct PickList {
    pub(crate) picks: ArrayList<usize, 16>,
}
