// The answers of the library's calls.
ghost use Rattle.std.specs.Prelude.{◌≡◌};
ghost use Rattle.formats.specs.Lawful.{outcome};
ghost use Rattle.operations.specs.Manual.{form_at};
ghost use Rattle.instructions.specs.Faults.{fault};
ghost use Rattle.instructions.specs.Words.{shown, the_word};
ghost use Rattle.cases.specs.Claims.{lawful_word, word_made, build_refusal, refusal_of, generated};

use instructions::build::build;
use instructions::fields::{BuildFault, Fields};
use instructions::instruction::Instruction;
use instructions::word::word_of;
use operands::generate::generate_imm;
use operands::imms::{Imm12, Imm20};
use operations::names::by_name;
use operations::operation::Operation;
use reading::word::read_word;

// What an upper and a lower immediate stand for.
#[derive(Clone, Copy, PartialEq, Eq)]
pub struct Parts {
    pub high: i64,
    pub low: i64,
}

// The instruction of these fields, or their first fault; a jump's n is its distance.
pub(crate) fn instruction(op: Operation, fields: Fields) -> Result<Instruction, BuildFault>
    ensures { shown result ≡ outcome (fault (form_at op.place) fields) (op, fields) }
{
    match build(op, fields) {
        Err(BuildFault::Jump) => Instruction::checked(op, fields),
        answer => answer,
    }
}

// The word that it has, if the word reads as just that instruction.
fn read_back(i: &Instruction) -> Option<u32>
    ensures { result ≡ Some (the_word i.now) }
{
    let word = word_of(i);
    let read = read_word(word)?;
    let same = read.op().place == i.op().place && read.fields() == i.fields();
    same.then_some(word)
}

// The word of these fields, built and read back.
fn lawful_word(op: Operation, fields: Fields) -> Option<u32>
    ensures { result ≡ lawful_word fields op.place }
{
    let made = instruction(op, fields).ok()?;
    read_back(&made)
}

// The word of the operation of that name with these fields.
pub(crate) fn word_made(name: &[u8], fields: Fields) -> Option<u32>
    ensures { result ≡ word_made name.now fields }
{
    lawful_word(by_name(name)?, fields)
}

// The number with which `build` refuses these fields.
fn build_refusal(op: Operation, fields: Fields) -> Option<u8>
    ensures { result ≡ build_refusal fields op.place }
{
    let fault = build(op, fields).err()?;
    Some(fault.number())
}

// The number with which the operation of that name refuses these fields.
pub(crate) fn refusal_of(name: &[u8], fields: Fields) -> Option<u8>
    ensures { result ≡ refusal_of name.now fields }
{
    build_refusal(by_name(name)?, fields)
}

fn parts_of(high: Imm20, low: Imm12) -> Parts
    ensures high { result.high ≡ high.value }
    ensures low { result.low ≡ low.value }
{
    Parts {
        high: i64::from(high),
        low: i64::from(low),
    }
}

// The parts of the pair that `generate_imm` answers.
#[tactic(auto, using(crate::proofs::Answered::generated_no))]
fn answered_parts(value: i64) -> Option<Parts>
    ensures { result ≡ generated value }
{
    let (high, low) = generate_imm(value)?;
    Some(parts_of(high, low))
}

// The high and low part of a value.
pub(crate) fn generated(value: i64) -> Option<Parts>
    ensures { result ≡ generated value }
{
    answered_parts(value)
}
