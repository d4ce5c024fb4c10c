//! What a program records: how far it has come, and its labels, jumps and slots.
#![tactic(auto)]

pub mod book;
pub mod counts;
pub mod labels;
