// The lattices that are known by name.
#[derive(Clone, Copy, PartialEq, Eq, Debug)]
pub enum Known {
    Square,
    Hex,
    Cubic,
}
