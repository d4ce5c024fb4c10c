//! Lines, fields and numbers out of bytes, and texts of fixed size.
#![tactic(auto)]

mod bytes;
pub mod fields;
pub mod lines;
pub mod numbers;
pub mod words;
pub mod writing;
