// A cell of a lattice.
#[derive(Clone, Copy, PartialEq, Eq, Debug, Default)]
pub struct Cell {
    pub a: i8,
    pub b: i8,
    pub c: i8,
}
