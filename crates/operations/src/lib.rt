//! The operations: one table of their names, formats, codes and fields.
#![tactic(auto)]

pub mod names;
pub mod operation;
pub mod row;
pub mod table;
