//! Sheets: lines of calls in, their program's words out.
#![tactic(auto)]

mod assemble;
mod entries;
pub mod faults;
mod refusals;
pub mod sheet;
