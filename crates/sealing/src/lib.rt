//! Sealing: every jump is given the distance to its label.
#![tactic(auto)]

mod aims;
pub mod faults;
mod places;
pub mod seal;
