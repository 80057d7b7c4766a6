// The text catalogue of a listing, and the press that writes it.
#![tactic(auto)]

mod items;
mod lists;
mod numbers;
