// The operands of each format: registers and constants in their range, and plain codes.
use operands::distances::{BDistance, CjDistance, JDistance};
use operands::regs::RegNum;

#[derive(Clone, Copy)]
pub struct BOperands {
    pub opcode: u32,
    pub funct3: u32,
    pub rs1: RegNum,
    pub rs2: RegNum,
    pub distance: BDistance,
}

#[derive(Clone, Copy)]
pub struct JOperands {
    pub opcode: u32,
    pub rd: RegNum,
    pub distance: JDistance,
}

#[derive(Clone, Copy)]
pub struct CjOperands {
    pub opcode: u32,
    pub distance: CjDistance,
    pub funct3: u32,
}
