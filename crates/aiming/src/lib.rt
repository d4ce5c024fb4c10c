//! Jumps: the one that stands at a place, the same at another distance, and new ones.
#![tactic(auto)]

pub mod aim;
pub mod faults;
pub mod laws;
pub mod make;
pub mod standing;
