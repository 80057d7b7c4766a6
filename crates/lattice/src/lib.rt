// Cells, the interface of a lattice, its kinds, and the refusals.
#![tactic(auto)]

pub mod cell;
pub mod cells;
pub mod inverse;
pub mod kind;
pub mod kinds;
pub mod lattice;
pub mod matrix;
pub mod motion_set;
pub mod motion_sets;
pub mod refusal;
pub mod rows;
