// What a line tells of an operation of vector arithmetic.
ghost use Rattle.std.specs.Prelude.{◌≡◌, Some};
ghost use Rattle.std.specs.Str.{bytes_eq};
ghost use Rattle.vector_operations.specs.Codes.{form_named};
ghost use Rattle.replay.specs.declared.rules.OpList.TheVariants.{Rrr as rrr-list, Rrrr as rrrr-list, RrImm5 as rr_imm5-list, RrrImm5 as rrr_imm5-list};
ghost use Rattle.replay.specs.Rules.{lists, categories, truth, class_text as text_of_class, codes_told, overlaps_told, class_told, sign_told, told_by, told_of};

use crate::line::text_at;
use crate::name::Named;
use crate::operand::operand_at;
use operands::regs::Class;
use vector_operations::rr_imm5::VecAluOpRRImm5;
use vector_operations::rrr::VecAluOpRRR;
use vector_operations::rrr_imm5::VecAluOpRRRImm5;
use vector_operations::rrrr::VecAluOpRRRR;
use vector_operations::vector::{VecAluOp, VecInstOverlapInfo, VecOpCategory};

// The enums of operations.
#[derive(Clone, Copy)]
pub enum OpList {
    Rrr,
    Rrrr,
    RrImm5,
    RrrImm5,
}

impl Named for OpList {
    ghost names = { lists };

    fn names() -> &'static [(&'static str, OpList)] {
        &[
            ("VecAluOpRRR", OpList::Rrr),
            ("VecAluOpRRRR", OpList::Rrrr),
            ("VecAluOpRRImm5", OpList::RrImm5),
            ("VecAluOpRRRImm5", OpList::RrrImm5),
        ]
    }
}

impl Named for VecOpCategory {
    ghost names = { categories };

    fn names() -> &'static [(&'static str, VecOpCategory)] {
        &[
            ("OPIVV", VecOpCategory::OPIVV),
            ("OPFVV", VecOpCategory::OPFVV),
            ("OPMVV", VecOpCategory::OPMVV),
            ("OPIVI", VecOpCategory::OPIVI),
            ("OPIVX", VecOpCategory::OPIVX),
            ("OPFVF", VecOpCategory::OPFVF),
            ("OPMVX", VecOpCategory::OPMVX),
            ("OPCFG", VecOpCategory::OPCFG),
        ]
    }
}

// Whether the text is that truth.
fn is_truth(text: &[u8], b: bool) -> bool
    ensures { result ≡ bytes_eq text.now (truth b) }
{
    if b {
        text == b"true".as_slice()
    } else {
        text == b"false".as_slice()
    }
}

// Whether the text is that class.
fn is_class(text: &[u8], class: Class) -> bool
    ensures { result ≡ bytes_eq text.now (text_of_class class) }
{
    match class {
        Class::Integer => text == b"Int".as_slice(),
        Class::Float => text == b"Float".as_slice(),
        Class::Vector => text == b"Vector".as_slice(),
    }
}

// Whether the line tells the operation's codes.
fn codes_agree<O: VecAluOp>(line: &[u8], op: O) -> Option<bool>
    ensures { result ≡ codes_told line.now (form_named (O.name op)) }
{
    let opcode: u32 = operand_at(line, 2)?;
    let funct3: u32 = operand_at(line, 3)?;
    let funct6: u32 = operand_at(line, 4)?;
    let category: VecOpCategory = operand_at(line, 5)?;
    Some(
        opcode == op.opcode()
            && funct3 == op.funct3()
            && funct6 == op.funct6()
            && category.encode() == op.category().encode(),
    )
}

// Whether the line tells the overlaps that the operation forbids.
fn overlaps_agree<O: VecInstOverlapInfo>(line: &[u8], op: &O) -> Option<bool>
    ensures { result ≡ overlaps_told line.now (O.forbids op.now) }
{
    let sources = text_at(line, 6)?;
    let mask = text_at(line, 7)?;
    Some(
        is_truth(sources, op.forbids_src_dst_overlaps())
            && is_truth(mask, op.forbids_mask_dst_overlaps()),
    )
}

fn class_agrees(line: &[u8], class: Class) -> Option<bool>
    ensures { result ≡ class_told line.now (Some class) }
{
    Some(is_class(text_at(line, 8)?, class))
}

fn sign_agrees(line: &[u8], unsigned: bool) -> Option<bool>
    ensures { result ≡ sign_told line.now unsigned }
{
    Some(is_truth(text_at(line, 8)?, unsigned))
}

fn rrr(line: &[u8]) -> Option<bool>
    ensures { result ≡ told_by rrr-list line.now }
{
    let op: VecAluOpRRR = operand_at(line, 1)?;
    let codes = codes_agree(line, op)?;
    let overlaps = overlaps_agree(line, &op)?;
    let class = class_agrees(line, op.vs1_regclass())?;
    Some(codes && overlaps && class)
}

fn rrrr(line: &[u8]) -> Option<bool>
    ensures { result ≡ told_by rrrr-list line.now }
{
    let op: VecAluOpRRRR = operand_at(line, 1)?;
    let codes = codes_agree(line, op)?;
    let overlaps = overlaps_agree(line, &op)?;
    let class = class_agrees(line, op.vs1_regclass())?;
    Some(codes && overlaps && class)
}

fn rr_imm5(line: &[u8]) -> Option<bool>
    ensures { result ≡ told_by rr_imm5-list line.now }
{
    let op: VecAluOpRRImm5 = operand_at(line, 1)?;
    let codes = codes_agree(line, op)?;
    let overlaps = overlaps_agree(line, &op)?;
    let sign = sign_agrees(line, op.imm_is_unsigned())?;
    Some(codes && overlaps && sign)
}

fn rrr_imm5(line: &[u8]) -> Option<bool>
    ensures { result ≡ told_by rrr_imm5-list line.now }
{
    let op: VecAluOpRRRImm5 = operand_at(line, 1)?;
    let codes = codes_agree(line, op)?;
    let overlaps = overlaps_agree(line, &op)?;
    let sign = sign_agrees(line, op.imm_is_unsigned())?;
    Some(codes && overlaps && sign)
}

impl OpList {
    // Whether the line tells what holds of the operation of this list that it names.
    fn told(self, line: &[u8]) -> Option<bool>
        ensures { result ≡ told_by self line.now }
    {
        match self {
            OpList::Rrr => rrr(line),
            OpList::Rrrr => rrrr(line),
            OpList::RrImm5 => rr_imm5(line),
            OpList::RrrImm5 => rrr_imm5(line),
        }
    }
}

// Whether the line tells what holds of the operation that it names.
pub(crate) fn told(line: &[u8]) -> Option<bool>
    ensures { result ≡ told_of line.now }
{
    let list: OpList = operand_at(line, 0)?;
    list.told(line)
}
