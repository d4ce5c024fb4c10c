//! The items of a program's listing, and what holds of them.
#![tactic(auto)]

pub mod jump_items;
pub mod laws;
pub mod pair_items;
pub mod words;
