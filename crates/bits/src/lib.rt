//! Words as parts: putting a field into a word, cutting it out, and walking a layout; and two's complement.
#![tactic(auto)]

pub mod fields;
pub mod halves;
pub mod laws;
pub mod layout;
pub mod part;
pub mod signs;
