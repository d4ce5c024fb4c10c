// The operands of each format: registers and constants in their range, and plain codes.
// Stays: CR with two registers, with one and with none are three, since one type would hold registers that a word lacks.
use operands::imms::{Imm6, Uimm8};
use operands::regs::{RegNum, ShortNum};

#[derive(Clone, Copy)]
pub struct CrOperands {
    pub opcode: u32,
    pub rs2: RegNum,
    pub rd: RegNum,
    pub funct4: u32,
}

#[derive(Clone, Copy)]
pub struct Cr2Operands {
    pub opcode: u32,
    pub rs1: RegNum,
    pub funct4: u32,
}

#[derive(Clone, Copy)]
pub struct CrBareOperands {
    pub opcode: u32,
    pub funct4: u32,
}

#[derive(Clone, Copy)]
pub struct CaOperands {
    pub opcode: u32,
    pub rs2: ShortNum,
    pub funct2: u32,
    pub rd: ShortNum,
    pub funct6: u32,
}

#[derive(Clone, Copy)]
pub struct CiOperands {
    pub opcode: u32,
    pub imm: Imm6,
    pub rd: RegNum,
    pub funct3: u32,
}

#[derive(Clone, Copy)]
pub struct CiwOperands {
    pub opcode: u32,
    pub rd: ShortNum,
    pub imm: Uimm8,
    pub funct3: u32,
}

#[derive(Clone, Copy)]
pub struct CbOperands {
    pub opcode: u32,
    pub imm: Imm6,
    pub rd: ShortNum,
    pub funct2: u32,
    pub funct3: u32,
}
