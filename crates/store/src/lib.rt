//! Stores: lists of halfwords of fixed length, at most 32768 of them.
#![tactic(auto)]

pub mod built_in;
pub mod bytes;
pub mod store;
pub mod window;
