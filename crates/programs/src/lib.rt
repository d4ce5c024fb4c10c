//! Programs: open, inside a try, and sealed; and whole lives of programs.
#![tactic(auto)]

// Stays: store and book are passed to each call of a program by design, since it holds plain numbers alone.
mod answers;
pub mod open;
pub mod run;
pub mod sealed;
pub mod trying;
