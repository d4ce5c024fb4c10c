//! Text for a reader: the words of a program, and a fault.
#![tactic(auto)]

pub mod faults;
pub mod words;
