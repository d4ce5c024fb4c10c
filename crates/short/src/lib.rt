//! Compressed formats of registers and plain constants.
#![tactic(auto)]

pub mod ca;
pub mod cb;
pub mod ci;
pub mod ciw;
pub mod cr;
pub mod cr2;
pub mod cr_bare;
pub mod operands_of;
