// The encoders of 16 bits, each on the operands of a line.
// Stays: a function over two encoders would state in its contract again what each of them answers.
ghost use Rattle.std.specs.Prelude.{◌≡◌};
ghost use Rattle.replay.specs.Words.{cr_type, cr2_type, ca_type, cj_type, ci_type, ci_sp_load, c_addi16sp, ciw_type, cb_type, css_type, cs_type, cl_type};

use crate::answer::{Answer, Word};
use crate::operand::operand_at;
use encoders::encode::{
    encode_c_addi16sp, encode_ca_type, encode_cb_type, encode_ci_sp_load, encode_ci_type,
    encode_ciw_type, encode_cj_type, encode_cl_type, encode_cr_type, encode_cr2_type,
    encode_cs_type, encode_css_type,
};

pub(crate) fn cr(line: &[u8]) -> Option<Answer>
    ensures { result ≡ cr_type line.now }
{
    let op = operand_at(line, 1)?;
    let rd = operand_at(line, 2)?;
    let rs2 = operand_at(line, 3)?;
    Some(Ok(Word::Short(encode_cr_type(op, rd, rs2))))
}

pub(crate) fn cr2(line: &[u8]) -> Option<Answer>
    ensures { result ≡ cr2_type line.now }
{
    let op = operand_at(line, 1)?;
    let rs1 = operand_at(line, 2)?;
    Some(Ok(Word::Short(encode_cr2_type(op, rs1))))
}

pub(crate) fn ca(line: &[u8]) -> Option<Answer>
    ensures { result ≡ ca_type line.now }
{
    let op = operand_at(line, 1)?;
    let rd = operand_at(line, 2)?;
    let rs2 = operand_at(line, 3)?;
    Some(Ok(Word::Short(encode_ca_type(op, rd, rs2))))
}

pub(crate) fn cj(line: &[u8]) -> Option<Answer>
    ensures { result ≡ cj_type line.now }
{
    let op = operand_at(line, 1)?;
    let distance = operand_at(line, 2)?;
    Some(encode_cj_type(op, distance).map(Word::Short))
}

pub(crate) fn ci(line: &[u8]) -> Option<Answer>
    ensures { result ≡ ci_type line.now }
{
    let op = operand_at(line, 1)?;
    let rd = operand_at(line, 2)?;
    let imm = operand_at(line, 3)?;
    Some(Ok(Word::Short(encode_ci_type(op, rd, imm))))
}

pub(crate) fn ci_sp(line: &[u8]) -> Option<Answer>
    ensures { result ≡ ci_sp_load line.now }
{
    let op = operand_at(line, 1)?;
    let rd = operand_at(line, 2)?;
    let imm = operand_at(line, 3)?;
    Some(encode_ci_sp_load(op, rd, imm).map(Word::Short))
}

pub(crate) fn addi16sp(line: &[u8]) -> Option<Answer>
    ensures { result ≡ c_addi16sp line.now }
{
    let imm = operand_at(line, 1)?;
    Some(Ok(Word::Short(encode_c_addi16sp(imm))))
}

pub(crate) fn ciw(line: &[u8]) -> Option<Answer>
    ensures { result ≡ ciw_type line.now }
{
    let op = operand_at(line, 1)?;
    let rd = operand_at(line, 2)?;
    let imm = operand_at(line, 3)?;
    Some(Ok(Word::Short(encode_ciw_type(op, rd, imm))))
}

pub(crate) fn cb(line: &[u8]) -> Option<Answer>
    ensures { result ≡ cb_type line.now }
{
    let op = operand_at(line, 1)?;
    let rd = operand_at(line, 2)?;
    let imm = operand_at(line, 3)?;
    Some(Ok(Word::Short(encode_cb_type(op, rd, imm))))
}

pub(crate) fn css(line: &[u8]) -> Option<Answer>
    ensures { result ≡ css_type line.now }
{
    let op = operand_at(line, 1)?;
    let src = operand_at(line, 2)?;
    let imm = operand_at(line, 3)?;
    Some(Ok(Word::Short(encode_css_type(op, src, imm))))
}

pub(crate) fn cs(line: &[u8]) -> Option<Answer>
    ensures { result ≡ cs_type line.now }
{
    let op = operand_at(line, 1)?;
    let src = operand_at(line, 2)?;
    let base = operand_at(line, 3)?;
    let imm = operand_at(line, 4)?;
    Some(Ok(Word::Short(encode_cs_type(op, src, base, imm))))
}

pub(crate) fn cl(line: &[u8]) -> Option<Answer>
    ensures { result ≡ cl_type line.now }
{
    let op = operand_at(line, 1)?;
    let dest = operand_at(line, 2)?;
    let base = operand_at(line, 3)?;
    let imm = operand_at(line, 4)?;
    Some(Ok(Word::Short(encode_cl_type(op, dest, base, imm))))
}
