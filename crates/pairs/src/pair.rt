// The pair lui d, high and addi d, d, low.
ghost use Rattle.std.specs.Prelude.{◌≡◌, ◌++◌};
ghost use Rattle.formats.specs.Layouts.{size};
ghost use Rattle.operations.specs.Manual.{form_at};
ghost use Rattle.instructions.specs.Words.{halfwords_in, halfwords_of};
ghost use Rattle.pairs.specs.Pairs.{lui_place, addi_place, lui_fields, addi_fields, pair_of};

use crate::register::PairRegister;
use instructions::fields::Fields;
use instructions::instruction::Instruction;
use instructions::word::{Halfwords, halfwords_of};
use operands::imms::{Imm12, Imm20};
use operations::operation::Operation;

// Stay numbers: a look-up by name would answer an Option, and the contracts say whose places these are.

// The operation lui, by its place in the table.
fn lui() -> Operation
    ensures { result.place ≡ lui_place }
{
    Operation { place: 28 }
}

// The operation addi, by its place in the table.
fn addi() -> Operation
    ensures { result.place ≡ addi_place }
{
    Operation { place: 10 }
}

fn lui_fields(register: PairRegister, high: Imm20) -> Fields
    ensures { result ≡ lui_fields register.number high.value }
{
    Fields {
        d: register.number(),
        a: 0,
        b: 0,
        n: i64::from(high),
        m: 0,
    }
}

fn addi_fields(register: PairRegister, low: Imm12) -> Fields
    ensures { result ≡ addi_fields register.number low.value }
{
    Fields {
        d: register.number(),
        a: register.number(),
        b: 0,
        n: i64::from(low),
        m: 0,
    }
}

// lui d, high
fn upper_of(register: PairRegister, high: Imm20) -> Instruction
    ensures halfwords { halfwords_in result ≡ halfwords_of lui_place (lui_fields register.number high.value) }
    ensures two { size (form_at result.op.place).kind ≡ 2 }
{
    Instruction::of(lui(), lui_fields(register, high))
}

// addi d, d, low
fn lower_of(register: PairRegister, low: Imm12) -> Instruction
    ensures halfwords { halfwords_in result ≡ halfwords_of addi_place (addi_fields register.number low.value) }
    ensures two { size (form_at result.op.place).kind ≡ 2 }
{
    Instruction::of(addi(), addi_fields(register, low))
}

// The halfwords of two instructions that have two each.
fn four_of(upper: &Instruction, lower: &Instruction) -> [u16; 4]
    requires upper { size (form_at upper.now.op.place).kind ≡ 2 }
    requires lower { size (form_at lower.now.op.place).kind ≡ 2 }
    ensures { result ≡ halfwords_in upper.now ++ halfwords_in lower.now }
{
    match (halfwords_of(upper), halfwords_of(lower)) {
        (Halfwords::Two(a, b), Halfwords::Two(c, e)) => [a, b, c, e],
        _ => unreachable!(),
    }
}

// The halfwords of lui d, high and addi d, d, low.
pub fn pair_of(register: PairRegister, high: Imm20, low: Imm12) -> [u16; 4]
    ensures { result ≡ pair_of register.number high.value low.value }
{
    four_of(&upper_of(register, high), &lower_of(register, low))
}
