//! Registers, immediates and distances, each in its range by construction.
#![tactic(auto)]

pub mod distances;
pub mod generate;
pub mod imms;
pub mod masking;
pub mod range;
pub mod regs;
