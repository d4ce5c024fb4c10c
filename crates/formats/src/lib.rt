//! The interface of a format, and what follows from its law.
#![tactic(auto)]

pub mod access;
pub mod by;
pub mod faults;
pub mod format;
pub mod kind;
pub mod reaching;
