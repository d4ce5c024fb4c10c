//! The lines of a sheet: the names line, and the call that a line gives.
#![tactic(auto)]

pub mod columns;
pub mod deed;
pub mod faults;
mod numbers;
