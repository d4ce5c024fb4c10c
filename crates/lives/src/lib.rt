//! Lives of programs: a list of calls in order, each with its answer.
#![tactic(auto)]

pub mod types;
