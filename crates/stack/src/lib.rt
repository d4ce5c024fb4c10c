//! Compressed formats of the stack pointer.
#![tactic(auto)]

pub mod ci_addi16sp;
pub mod ci_load;
pub mod css;
pub mod operands_of;
