//! Scripts: the calls of a program's life, a line each, and the text of their answers.
#![tactic(auto)]

mod answering;
pub mod edits;
pub mod faults;
mod gather;
pub mod line;
mod listing;
pub mod script;
pub mod size;
pub mod told;
pub mod verb;
pub mod whole;
mod words;
