//! Programs: instructions written into a store, one after the other.
#![tactic(auto)]

pub mod append;
pub mod faults;
