//! The formats R, I, S and U.
#![tactic(auto)]

pub mod i;
pub mod operands_of;
pub mod r;
pub mod s;
pub mod u;
