// The operands in the fields of a line.
ghost use Rattle.std.specs.Prelude.{◌≡◌, ◌-◌, ◌^◌, min, Some, Option, ℕ, ℤ};
ghost use Rattle.std.specs.Option.{option_map};
ghost use Rattle.text.specs.Fields.{Part};
ghost use Rattle.text.specs.Shown.{shown};
ghost use Rattle.operands.specs.declared.masking.VecOpMasking.{VecOpMasking as Masked};
ghost use Rattle.replay.specs.Operands.{counted, natural, within, short, masking, operand_at as stands};

use operands::imms::{Signed, Unsigned};
use operands::masking::VecOpMasking;
use operands::regs::{Reg, ShortReg, x_reg};
use text::fields::{Field, get};

// What a field can stand for: a number in a range, or a name.
pub trait Operand: Copy {
    ghost Meaning: { Type 0 };

    ghost meaning: { Self → Meaning };

    ghost read: { Part → Option Meaning };

    // The operand that a field writes; none where it writes no such operand.
    fn of(field: Field<'_>) -> Option<Self>
        ensures { option_map meaning result ≡ read (shown field.entry) };
}

// The operand in field `k`.
pub(crate) fn operand_at<T: Operand>(line: &[u8], k: usize) -> Option<T>
    ensures { option_map T.meaning result ≡ stands line.now k T.read }
{
    T::of(get(line, k)?)
}

// A plain field.
// Stays apart from that of `u8`: an impl for every type of numbers would overlap the impl for values that have names.
impl Operand for u32 {
    ghost Meaning = { ℕ };

    ghost meaning = { λ n. n };

    ghost read = { counted (natural (2 ^ 32)) };

    fn of(field: Field<'_>) -> Option<u32> {
        u32::try_from(field.value()?).ok()
    }
}

impl Operand for u8 {
    ghost Meaning = { ℕ };

    ghost meaning = { λ n. n };

    ghost read = { counted (natural 256) };

    fn of(field: Field<'_>) -> Option<u8> {
        u8::try_from(field.value()?).ok()
    }
}

// Any number of signed 64 bits.
impl Operand for i64 {
    ghost Meaning = { ℤ };

    ghost meaning = { λ n. n };

    ghost read = { counted (λ z. Some z) };

    fn of(field: Field<'_>) -> Option<i64> {
        field.value()
    }
}

impl Operand for Reg {
    ghost Meaning = { ℕ };

    ghost meaning = { λ g. g.num.value };

    ghost read = { counted (natural 32) };

    fn of(field: Field<'_>) -> Option<Reg> {
        x_reg(u32::of(field)?)
    }
}

impl Operand for ShortReg {
    ghost Meaning = { ℕ };

    ghost meaning = { λ g. g.num.value };

    ghost read = { counted short };

    fn of(field: Field<'_>) -> Option<ShortReg> {
        Reg::of(field)?.short()
    }
}

impl<const WIDTH: u32> Operand for Signed<WIDTH> {
    ghost Meaning = { ℤ };

    ghost meaning = { λ i. i.value };

    ghost read = { counted (within (2 ^ (WIDTH - 1))) };

    #[tactic(auto, using(crate::proofs::Operands::inside, crate::proofs::Operands::outside))]
    fn of(field: Field<'_>) -> Option<Signed<WIDTH>> {
        Signed::try_from(field.value()?).ok()
    }
}

impl<const WIDTH: u32> Operand for Unsigned<WIDTH> {
    ghost Meaning = { ℕ };

    ghost meaning = { λ i. i.value };

    ghost read = { counted (natural (min (2 ^ 32) (2 ^ WIDTH))) };

    fn of(field: Field<'_>) -> Option<Unsigned<WIDTH>> {
        Unsigned::try_from(u32::of(field)?).ok()
    }
}

// 1 when masked, else 0.
impl Operand for VecOpMasking {
    ghost Meaning = { Masked };

    ghost meaning = { λ m. m };

    ghost read = { counted masking };

    fn of(field: Field<'_>) -> Option<VecOpMasking> {
        match field.value()? {
            0 => Some(VecOpMasking::Disabled),
            1 => Some(VecOpMasking::Enabled),
            _ => None,
        }
    }
}
