// The encoders of 32 bits, each on the operands of a line.
// Stay two: the vector load and store each run the encoder of their name. Tried as one function over the encoder: it is longer,
// since its contract has to say for any eight arguments what the encoder answers.
ghost use Rattle.std.specs.Prelude.{◌≡◌};
ghost use Rattle.replay.specs.Words.{r_type, i_type, s_type, valu as valu-of, valu_rrrr, valu_rr_imm, valu_rrr_imm, vmem};

use crate::answer::{Answer, Word};
use crate::operand::operand_at;
use encoders::encode::{
    encode_i_type, encode_r_type, encode_s_type, encode_valu, encode_valu_rr_imm,
    encode_valu_rrr_imm, encode_valu_rrrr, encode_vmem_load, encode_vmem_store,
};

pub(crate) fn r(line: &[u8]) -> Option<Answer>
    ensures { result ≡ r_type line.now }
{
    let opcode = operand_at(line, 1)?;
    let rd = operand_at(line, 2)?;
    let funct3 = operand_at(line, 3)?;
    let rs1 = operand_at(line, 4)?;
    let rs2 = operand_at(line, 5)?;
    let funct7 = operand_at(line, 6)?;
    Some(encode_r_type(opcode, rd, funct3, rs1, rs2, funct7).map(Word::Wide))
}

pub(crate) fn i(line: &[u8]) -> Option<Answer>
    ensures { result ≡ i_type line.now }
{
    let opcode = operand_at(line, 1)?;
    let rd = operand_at(line, 2)?;
    let funct3 = operand_at(line, 3)?;
    let rs1 = operand_at(line, 4)?;
    let offset = operand_at(line, 5)?;
    Some(encode_i_type(opcode, rd, funct3, rs1, offset).map(Word::Wide))
}

pub(crate) fn s(line: &[u8]) -> Option<Answer>
    ensures { result ≡ s_type line.now }
{
    let opcode = operand_at(line, 1)?;
    let funct3 = operand_at(line, 2)?;
    let base = operand_at(line, 3)?;
    let src = operand_at(line, 4)?;
    let offset = operand_at(line, 5)?;
    Some(encode_s_type(opcode, funct3, base, src, offset).map(Word::Wide))
}

pub(crate) fn valu(line: &[u8]) -> Option<Answer>
    ensures { result ≡ valu-of line.now }
{
    let op = operand_at(line, 1)?;
    let vd = operand_at(line, 2)?;
    let vs1 = operand_at(line, 3)?;
    let vs2 = operand_at(line, 4)?;
    let m = operand_at(line, 5)?;
    Some(Ok(Word::Wide(encode_valu(op, vd, vs1, vs2, m))))
}

pub(crate) fn valu_rrrr(line: &[u8]) -> Option<Answer>
    ensures { result ≡ valu_rrrr line.now }
{
    let op = operand_at(line, 1)?;
    let vd = operand_at(line, 2)?;
    let vs2 = operand_at(line, 3)?;
    let vs1 = operand_at(line, 4)?;
    let m = operand_at(line, 5)?;
    Some(Ok(Word::Wide(encode_valu_rrrr(op, vd, vs2, vs1, m))))
}

pub(crate) fn valu_rr_imm(line: &[u8]) -> Option<Answer>
    ensures { result ≡ valu_rr_imm line.now }
{
    let op = operand_at(line, 1)?;
    let vd = operand_at(line, 2)?;
    let imm = operand_at(line, 3)?;
    let vs2 = operand_at(line, 4)?;
    let m = operand_at(line, 5)?;
    Some(Ok(Word::Wide(encode_valu_rr_imm(op, vd, imm, vs2, m))))
}

pub(crate) fn valu_rrr_imm(line: &[u8]) -> Option<Answer>
    ensures { result ≡ valu_rrr_imm line.now }
{
    let op = operand_at(line, 1)?;
    let vd = operand_at(line, 2)?;
    let imm = operand_at(line, 3)?;
    let vs2 = operand_at(line, 4)?;
    let m = operand_at(line, 5)?;
    Some(Ok(Word::Wide(encode_valu_rrr_imm(op, vd, imm, vs2, m))))
}

pub(crate) fn vmem_load(line: &[u8]) -> Option<Answer>
    ensures { result ≡ vmem line.now }
{
    let opcode = operand_at(line, 1)?;
    let vd = operand_at(line, 2)?;
    let size = operand_at(line, 3)?;
    let rs1 = operand_at(line, 4)?;
    let lumop = operand_at(line, 5)?;
    let m = operand_at(line, 6)?;
    let mop = operand_at(line, 7)?;
    let nf = operand_at(line, 8)?;
    Some(encode_vmem_load(opcode, vd, size, rs1, lumop, m, mop, nf).map(Word::Wide))
}

pub(crate) fn vmem_store(line: &[u8]) -> Option<Answer>
    ensures { result ≡ vmem line.now }
{
    let opcode = operand_at(line, 1)?;
    let vs3 = operand_at(line, 2)?;
    let size = operand_at(line, 3)?;
    let rs1 = operand_at(line, 4)?;
    let sumop = operand_at(line, 5)?;
    let m = operand_at(line, 6)?;
    let mop = operand_at(line, 7)?;
    let nf = operand_at(line, 8)?;
    Some(encode_vmem_store(opcode, vs3, size, rs1, sumop, m, mop, nf).map(Word::Wide))
}
