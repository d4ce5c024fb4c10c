//! Reading: a word as the instruction that has it.
#![tactic(auto)]

pub mod faults;
pub mod fields;
mod groups;
pub mod laws;
pub mod read;
pub mod word;
