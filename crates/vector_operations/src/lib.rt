//! The vector operations: their names, codes and categories, and which overlaps they forbid.
#![tactic(auto)]

pub mod mem;
pub mod rr_imm5;
pub mod rrr;
pub mod rrr_imm5;
pub mod rrrr;
pub mod vector;
