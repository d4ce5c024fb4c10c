// The operands of each format: registers and constants in their range, and plain codes.
// Stays: two structs, since a load names where it puts what it reads, a store what it writes, and these are other fields.
use operands::imms::UImm5;
use operands::regs::ShortNum;

#[derive(Clone, Copy)]
pub struct CsOperands {
    pub opcode: u32,
    pub src: ShortNum,
    pub base: ShortNum,
    pub imm: UImm5,
    pub funct3: u32,
}

#[derive(Clone, Copy)]
pub struct ClOperands {
    pub opcode: u32,
    pub rd: ShortNum,
    pub base: ShortNum,
    pub imm: UImm5,
    pub funct3: u32,
}
