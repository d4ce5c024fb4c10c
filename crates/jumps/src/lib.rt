//! The formats with a distance: B, J and CJ.
#![tactic(auto)]

pub mod b;
pub mod cj;
pub mod j;
pub mod operands_of;
