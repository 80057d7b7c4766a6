// Shapes and their classes.
#![tactic(auto)]

pub mod arranging;
pub mod classed;
pub mod coordinates;
pub mod entries;
pub mod entry;
pub mod flooding;
pub mod images;
pub mod laws;
pub mod least;
pub mod making;
pub mod orbit;
pub mod orientation;
pub mod placement;
pub mod representative;
pub mod shape;
pub mod shape_fault;
pub mod shown;
pub mod symmetry;
#[cfg(test)]
mod tests;
