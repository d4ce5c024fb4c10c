//! Compressed loads and stores by a base register.
#![tactic(auto)]

pub mod cl;
pub mod cs;
pub mod operands_of;
