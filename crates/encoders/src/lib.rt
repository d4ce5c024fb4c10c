//! The encoders: one for each shape of word, on registers, immediates, operations and plain codes.
#![tactic(auto)]

pub mod encode;
pub mod faults;
