//! Pairs: a number as lui and addi, and the number that such a pair holds.
#![tactic(auto)]

pub mod held;
pub mod laws;
pub mod pair;
pub mod register;
