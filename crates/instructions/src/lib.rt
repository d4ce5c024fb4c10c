//! Instructions: an operation with lawful fields, and its word.
#![tactic(auto)]

pub mod build;
pub mod faults;
pub mod fields;
pub mod form;
pub mod instruction;
pub mod laws;
pub mod raws;
mod slot;
pub mod word;
