// The rows of a motion's matrix.
use crate::cell::Cell;

// Of each coordinate of a cell's image, how much of a, b and c it takes.
#[derive(Clone, Copy)]
pub struct Rows {
    pub to_a: Cell,
    pub to_b: Cell,
    pub to_c: Cell,
}
