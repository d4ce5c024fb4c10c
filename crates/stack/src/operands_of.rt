// The operands of each format: registers and constants in their range, and plain codes.
// Stays: three structs, since each lacks an operand that another has, or reads its constant with a sign.
use operands::imms::{Imm6, Uimm6};
use operands::regs::RegNum;

#[derive(Clone, Copy)]
pub struct CiLoadOperands {
    pub opcode: u32,
    pub imm: Uimm6,
    pub rd: RegNum,
    pub funct3: u32,
}

#[derive(Clone, Copy)]
pub struct CiAddi16spOperands {
    pub opcode: u32,
    pub imm: Imm6,
    pub funct3: u32,
}

#[derive(Clone, Copy)]
pub struct CssOperands {
    pub opcode: u32,
    pub src: RegNum,
    pub imm: Uimm6,
    pub funct3: u32,
}
