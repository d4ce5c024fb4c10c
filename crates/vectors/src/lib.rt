//! Vector arithmetic, and vector loads and stores.
#![tactic(auto)]

pub mod operands_of;
pub mod v;
pub mod v_imm;
pub mod v_mem;
