// Listing all classes of a size: the lister, where a class is, and the law of whole runs.
#![tactic(auto)]

pub mod calls;
mod display;
pub mod lister;
pub mod listers;
pub mod listings;
pub mod runs;
pub mod whereabouts;
