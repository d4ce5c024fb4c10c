//! The calls that an open program and a try take, over counts, book and store.
#![tactic(auto)]

// Stays: counts, book and store are passed to each call of a program by design, since it holds plain numbers alone.
pub mod bind;
pub mod constant;
pub mod emit;
pub mod faults;
pub mod jump;
pub mod labels;
