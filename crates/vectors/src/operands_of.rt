// The operands of each format: registers and constants in their range, and plain codes.
// Stays: vs1 and the constant share a place in the word, and are a register and a number with a sign.
use operands::imms::Imm5;
use operands::masking::VecOpMasking;
use operands::regs::RegNum;

#[derive(Clone, Copy)]
pub struct VOperands {
    pub opcode: u32,
    pub vd: RegNum,
    pub funct3: u32,
    pub vs1: RegNum,
    pub vs2: RegNum,
    pub masking: VecOpMasking,
    pub funct6: u32,
}

#[derive(Clone, Copy)]
pub struct VImmOperands {
    pub opcode: u32,
    pub vd: RegNum,
    pub funct3: u32,
    pub imm: Imm5,
    pub vs2: RegNum,
    pub masking: VecOpMasking,
    pub funct6: u32,
}

#[derive(Clone, Copy)]
pub struct VMemOperands {
    pub opcode: u32,
    pub vd: RegNum,
    pub width: u32,
    pub rs1: RegNum,
    pub masking: VecOpMasking,
}
