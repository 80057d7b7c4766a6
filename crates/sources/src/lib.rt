// Sources of entries, conditions on entries, and sieves.
#![tactic(auto)]

pub mod bounding_box;
pub mod condition;
pub mod sieve;
pub mod source;
pub mod symmetry;
