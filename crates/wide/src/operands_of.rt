// The operands of each format: registers and constants in their range, and plain codes.
use operands::imms::{Imm12, Imm20};
use operands::regs::RegNum;

#[derive(Clone, Copy)]
pub struct ROperands {
    pub opcode: u32,
    pub rd: RegNum,
    pub funct3: u32,
    pub rs1: RegNum,
    pub rs2: RegNum,
    pub funct7: u32,
}

#[derive(Clone, Copy)]
pub struct IOperands {
    pub opcode: u32,
    pub rd: RegNum,
    pub funct3: u32,
    pub rs1: RegNum,
    pub imm: Imm12,
}

#[derive(Clone, Copy)]
pub struct SOperands {
    pub opcode: u32,
    pub funct3: u32,
    pub rs1: RegNum,
    pub rs2: RegNum,
    pub imm: Imm12,
}

#[derive(Clone, Copy)]
pub struct UOperands {
    pub opcode: u32,
    pub rd: RegNum,
    pub imm: Imm20,
}
