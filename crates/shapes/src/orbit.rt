// The different members of a shape, each with the lowest motion that makes it.
use crate::orientation::Orientation;
use ordered::array_list::ArrayList;

#[derive(Clone, Copy)]
pub struct Orbit {
    pub(crate) orientations: ArrayList<Orientation, 48>,
}
