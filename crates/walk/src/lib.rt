// The walk of a connected set of cells, its pick list, and the search through all pick lists.
#![tactic(auto)]

mod copying;
mod direction_list;
pub mod pick_list;
mod place_list;
mod placing;
pub mod search;
pub mod searching;
mod stepping;
pub mod theorems;
mod trail;
pub mod walking;
