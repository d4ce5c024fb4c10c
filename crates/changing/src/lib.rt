//! Changing: the numbers of a sealed program's slots.
#![tactic(auto)]

pub mod change;
pub mod edits;
pub mod faults;
pub mod slots;
pub mod value;
