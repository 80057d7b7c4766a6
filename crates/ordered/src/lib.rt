// Lists over any kind of item that has a total order: comparing two, finding an item, and inserting one.
#![tactic(auto)]

pub mod array_list;
mod array_lists;
pub mod compare;
pub mod filler;
pub mod find;
pub mod insert;
pub mod order;
#[cfg(test)]
mod tests;
