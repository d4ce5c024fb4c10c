// What a line tells of a constant: an immediate, and the pair of immediates that makes a number.
ghost use Rattle.std.specs.Prelude.{◌≡◌, ◌^◌, ◌&&◌, pos};
ghost use Rattle.std.specs.Option.{option_map};
ghost use Rattle.std.specs.Ordering.{int_eq};
ghost use Rattle.bits.specs.Twos.{twos, signed};
ghost use Rattle.operands.specs.Ranges.{made};
ghost use Rattle.replay.specs.declared.constants.Made.{Made};
ghost use Rattle.replay.specs.Operands.{natural, within};
ghost use Rattle.replay.specs.Constants.{constructors, made_by, says_none as none-said, made_told, constructed as constructed-of, makeable, paired as paired-of};

use crate::line::text_at;
use crate::name::Named;
use crate::operand::operand_at;
use operands::generate::generate_imm;
use operands::imms::{Imm5, Imm6, Imm12, Imm20, UImm5, Uimm6};

// An immediate's bits, and the number that it is.
#[derive(Clone, Copy)]
pub struct Made {
    pub bits: u32,
    pub value: i64,
}

impl From<Imm5> for Made {
    ghost from_gives = { λ i m. m ≡ record { bits = twos 5 i.value; value = i.value } };

    fn from(imm: Imm5) -> Made {
        Made {
            bits: u32::from(imm.bits()),
            value: i64::from(imm),
        }
    }
}

impl From<Imm6> for Made {
    ghost from_gives = { λ i m. m ≡ record { bits = twos 6 i.value; value = i.value } };

    fn from(imm: Imm6) -> Made {
        Made {
            bits: u32::from(imm.bits()),
            value: i64::from(imm),
        }
    }
}

impl From<Imm12> for Made {
    ghost from_gives = { λ i m. m ≡ record { bits = twos 12 i.value; value = i.value } };

    fn from(imm: Imm12) -> Made {
        Made {
            bits: imm.bits(),
            value: i64::from(imm.as_i16()),
        }
    }
}

impl From<Imm20> for Made {
    ghost from_gives = { λ i m. m ≡ record { bits = twos 20 i.value; value = i.value } };

    fn from(imm: Imm20) -> Made {
        Made {
            bits: imm.bits(),
            value: i64::from(imm.as_i32()),
        }
    }
}

impl From<UImm5> for Made {
    ghost from_gives = { λ i m. m ≡ record { bits = i.value; value = pos i.value } };

    fn from(imm: UImm5) -> Made {
        Made {
            bits: imm.bits(),
            value: i64::from(imm.bits()),
        }
    }
}

impl From<Uimm6> for Made {
    ghost from_gives = { λ i m. m ≡ record { bits = i.value; value = pos i.value } };

    fn from(imm: Uimm6) -> Made {
        Made {
            bits: u32::from(imm.bits()),
            value: i64::from(imm.bits()),
        }
    }
}

// The constructors of immediates, each with the width of its argument.
#[derive(Clone, Copy)]
pub enum Constructor {
    Imm12FromU64,
    Imm12FromI64,
    Imm12FromI16,
    Imm20FromU64,
    Imm20FromI64,
    Imm20FromI32,
    UImm5FromU8,
    Imm5FromI8,
    Imm5FromBits,
    Imm6FromI16,
    Imm6FromI32,
    Imm6FromImm12,
    Uimm6FromU8,
}

impl Named for Constructor {
    ghost names = { constructors };

    fn names() -> &'static [(&'static str, Constructor)] {
        &[
            ("Imm12::maybe_from_u64", Constructor::Imm12FromU64),
            ("Imm12::maybe_from_i64", Constructor::Imm12FromI64),
            ("Imm12::from_i16", Constructor::Imm12FromI16),
            ("i64::from(Imm12)", Constructor::Imm12FromI16),
            ("Imm20::maybe_from_u64", Constructor::Imm20FromU64),
            ("Imm20::maybe_from_i64", Constructor::Imm20FromI64),
            ("Imm20::from_i32", Constructor::Imm20FromI32),
            ("UImm5::maybe_from_u8", Constructor::UImm5FromU8),
            ("Imm5::maybe_from_i8", Constructor::Imm5FromI8),
            ("Imm5::from_bits", Constructor::Imm5FromBits),
            ("Imm6::maybe_from_i16", Constructor::Imm6FromI16),
            ("Imm6::maybe_from_i32", Constructor::Imm6FromI32),
            ("Imm6::maybe_from_imm12", Constructor::Imm6FromImm12),
            ("Uimm6::maybe_from_u8", Constructor::Uimm6FromU8),
            ("Uimm5::maybe_from_u8", Constructor::UImm5FromU8),
        ]
    }
}

fn imm12_from_u64(n: i64) -> Option<Imm12>
    ensures { option_map (λ i. i.value) result ≡ within (2 ^ 11) n }
{
    Imm12::maybe_from_u64(n.cast_unsigned())
}

fn imm12_from_i64(n: i64) -> Option<Imm12>
    ensures { option_map (λ i. i.value) result ≡ within (2 ^ 11) n }
{
    Imm12::maybe_from_i64(n)
}

fn imm12_from_i16(n: i64) -> Option<Imm12>
    ensures { option_map (λ i. i.value) result ≡ within (2 ^ 11) n }
{
    Imm12::from_i16(i16::try_from(n).ok()?)
}

fn imm20_from_u64(n: i64) -> Option<Imm20>
    ensures { option_map (λ i. i.value) result ≡ within (2 ^ 19) n }
{
    Imm20::maybe_from_u64(n.cast_unsigned())
}

fn imm20_from_i64(n: i64) -> Option<Imm20>
    ensures { option_map (λ i. i.value) result ≡ within (2 ^ 19) n }
{
    Imm20::maybe_from_i64(n)
}

fn imm20_from_i32(n: i64) -> Option<Imm20>
    ensures { option_map (λ i. i.value) result ≡ within (2 ^ 19) n }
{
    Imm20::from_i32(i32::try_from(n).ok()?)
}

fn imm5_from_i8(n: i64) -> Option<Imm5>
    ensures { option_map (λ i. i.value) result ≡ within (2 ^ 4) n }
{
    Imm5::maybe_from_i8(i8::try_from(n).ok()?)
}

fn imm6_from_i16(n: i64) -> Option<Imm6>
    ensures { option_map (λ i. i.value) result ≡ within (2 ^ 5) n }
{
    Imm6::maybe_from_i16(i16::try_from(n).ok()?)
}

fn imm6_from_i32(n: i64) -> Option<Imm6>
    ensures { option_map (λ i. i.value) result ≡ within (2 ^ 5) n }
{
    Imm6::maybe_from_i32(i32::try_from(n).ok()?)
}

fn imm6_from_imm12(n: i64) -> Option<Imm6>
    ensures { option_map (λ i. i.value) result ≡ within (2 ^ 5) n }
{
    Imm6::maybe_from_imm12(imm12_from_i16(n)?)
}

fn uimm6_from_u8(n: i64) -> Option<Uimm6>
    ensures { option_map (λ i. i.value) result ≡ natural (2 ^ 6) n }
{
    Uimm6::maybe_from_u8(u8::try_from(n).ok()?)
}

fn imm5_from_bits(n: i64) -> Option<Imm5>
    ensures { option_map (λ i. i.value) result ≡ option_map (λ b. signed 5 b) (natural 32 n) }
{
    Imm5::from_bits(u8::try_from(n).ok()?)
}

fn uimm5_from_u8(n: i64) -> Option<UImm5>
    ensures { option_map (λ i. i.value) result ≡ natural (2 ^ 5) n }
{
    UImm5::maybe_from_u8(u8::try_from(n).ok()?)
}

impl Constructor {
    // The immediate that it makes of a number.
    fn make(self, n: i64) -> Option<Made>
        ensures { result ≡ made_by self n }
    {
        match self {
            Constructor::Imm12FromU64 => imm12_from_u64(n).map(Made::from),
            Constructor::Imm12FromI64 => imm12_from_i64(n).map(Made::from),
            Constructor::Imm12FromI16 => imm12_from_i16(n).map(Made::from),
            Constructor::Imm20FromU64 => imm20_from_u64(n).map(Made::from),
            Constructor::Imm20FromI64 => imm20_from_i64(n).map(Made::from),
            Constructor::Imm20FromI32 => imm20_from_i32(n).map(Made::from),
            Constructor::UImm5FromU8 => uimm5_from_u8(n).map(Made::from),
            Constructor::Imm5FromI8 => imm5_from_i8(n).map(Made::from),
            Constructor::Imm5FromBits => imm5_from_bits(n).map(Made::from),
            Constructor::Imm6FromI16 => imm6_from_i16(n).map(Made::from),
            Constructor::Imm6FromI32 => imm6_from_i32(n).map(Made::from),
            Constructor::Imm6FromImm12 => imm6_from_imm12(n).map(Made::from),
            Constructor::Uimm6FromU8 => uimm6_from_u8(n).map(Made::from),
        }
    }
}

// Whether the text says that there is none.
fn says_none(text: &[u8]) -> bool
    ensures { result ≡ none-said text.now }
{
    text == b"none".as_slice() || text == b"panic".as_slice()
}

// Whether fields 2 and on tell what was made.
fn made_agrees(line: &[u8], made: Option<Made>) -> Option<bool>
    ensures { result ≡ made_told line.now made }
{
    match made {
        None => Some(says_none(text_at(line, 2)?)),
        Some(made) => {
            let bits: u32 = operand_at(line, 2)?;
            let value: i64 = operand_at(line, 3)?;
            Some(bits == made.bits && value == made.value)
        }
    }
}

// Whether the line tells the immediate of its constructor and number.
pub(crate) fn constructed(line: &[u8]) -> Option<bool>
    ensures { result ≡ constructed-of line.now }
{
    let constructor: Constructor = operand_at(line, 0)?;
    let n: i64 = operand_at(line, 1)?;
    made_agrees(line, constructor.make(n))
}

// Whether two pairs are the same.
fn same(h: Imm20, l: Imm12, high: Imm20, low: Imm12) -> bool
    ensures { result ≡ (int_eq h.value high.value && int_eq l.value low.value) }
{
    i64::from(h) == i64::from(high) && i64::from(l) == i64::from(low)
}

// Whether the number is made by this pair.
#[tactic(auto, using(crate::proofs::Pairs::pair_tells, crate::proofs::Pairs::none_tells))]
fn makes(high: Imm20, low: Imm12, value: i64) -> bool
    ensures { result ≡ int_eq (made high.value low.value) value }
{
    match generate_imm(value) {
        Some((h, l)) => same(h, l, high, low),
        None => false,
    }
}

fn is_makeable(value: i64) -> bool
    ensures { result ≡ makeable value }
{
    generate_imm(value).is_some()
}

// Whether the line tells the pair of immediates that makes its number.
pub(crate) fn paired(line: &[u8]) -> Option<bool>
    ensures { result ≡ paired-of line.now }
{
    if text_at(line, 0)? != b"generate_imm".as_slice() {
        return None;
    }
    let value: i64 = operand_at(line, 1)?;
    if says_none(text_at(line, 2)?) {
        return Some(!is_makeable(value));
    }
    let high: Imm20 = operand_at(line, 2)?;
    let low: Imm12 = operand_at(line, 3)?;
    Some(makes(high, low, value))
}
