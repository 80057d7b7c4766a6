// The square, hex and cubic lattices.
#![tactic(auto)]

pub mod cubic;
mod cubic_table;
mod directions;
pub mod hex;
pub mod known;
pub mod names;
mod near_cell;
mod plane;
pub mod square;
