// The fields of an instruction, as an operation uses them.
ghost use Rattle.std.specs.Prelude.{◌≡◌, ℕ, ℤ, Bool, true};
ghost use Rattle.instructions.specs.Faults.{reg_ok, number_ok, mask_ok, mask_rule, taken, taken_number, Workable};
ghost use Rattle.instructions.specs.Words.{raw_reg, raw_number, raw_mask};

use bits::signs::unsign;
use operands::range;
use operations::row::{Masking, Number, Use};

// A field's use, none where the operation does not use it.
pub(crate) trait Slot: Copy {
    // what the code asks of the use
    ghost works: { Self → Type 0 };

    // the field's range
    ghost range: { Self → ℤ → Bool };

    // what the operation takes of the range
    ghost takes: { Self → ℤ → Bool };

    // the field in the word
    ghost raw: { Self → ℤ → ℕ };

    // Whether the value is in the field's range.
    fn holds(self, x: i64) -> bool
        requires { works self }
        ensures { result ≡ range self x };

    // Whether the operation takes that value of the range.
    fn may_be(self, x: i64) -> bool
        ensures { result ≡ takes self x };

    // A value of the range, as it stands in the word.
    fn in_word(self, x: i64) -> u32
        requires works { works self }
        requires range { range self x ≡ true }
        ensures { result ≡ raw self x };
}

impl Slot for Option<Use> {
    ghost works = { λ u. Unit {0} };

    ghost range = { reg_ok };

    ghost takes = { taken };

    ghost raw = { raw_reg };

    fn holds(self, x: i64) -> bool {
        match self {
            None => true,
            Some(Use::Full(_, _)) => (0..32).contains(&x),
            Some(Use::Short(_)) => (8..16).contains(&x),
        }
    }

    fn may_be(self, x: i64) -> bool {
        match self {
            Some(Use::Full(_, except)) => except.permits(x.unsigned_abs()),
            None | Some(Use::Short(_)) => true,
        }
    }

    fn in_word(self, x: i64) -> u32 {
        match self {
            None => 0,
            Some(Use::Full(_, _)) => x.unsigned_abs() as u32,
            Some(Use::Short(_)) => (x.unsigned_abs() - 8) as u32,
        }
    }
}

impl Slot for Option<Number> {
    ghost works = { Workable };

    ghost range = { number_ok };

    ghost takes = { taken_number };

    ghost raw = { raw_number };

    fn holds(self, x: i64) -> bool {
        match self {
            None => true,
            Some(Number::Signed { width, unit, .. }) => {
                let unit = i64::from(unit);
                x % unit == 0 && range::holds(width, x / unit)
            }
            Some(Number::Unsigned { width, unit, .. }) => {
                let unit = i64::from(unit);
                x % unit == 0 && (0..1 << width).contains(&(x / unit))
            }
        }
    }

    fn may_be(self, x: i64) -> bool {
        match self {
            None => true,
            Some(Number::Signed { allowed, .. } | Number::Unsigned { allowed, .. }) => {
                allowed.allows(x)
            }
        }
    }

    #[tactic(auto, using(crate::proofs::Constants::number_32))]
    fn in_word(self, x: i64) -> u32 {
        match self {
            None => 0,
            Some(Number::Signed { width, unit, .. }) => unsign(x / i64::from(unit), width),
            Some(Number::Unsigned { unit, .. }) => (x.unsigned_abs() / u64::from(unit)) as u32,
        }
    }
}

impl Slot for Option<Masking> {
    ghost works = { λ u. Unit {0} };

    ghost range = { mask_ok };

    ghost takes = { mask_rule };

    ghost raw = { raw_mask };

    fn holds(self, x: i64) -> bool {
        self.is_none() || (0..2).contains(&x)
    }

    fn may_be(self, x: i64) -> bool {
        match self {
            None | Some(Masking::Free) => true,
            Some(Masking::Always) => x.unsigned_abs() == 1,
            Some(Masking::Never) => x == 0,
        }
    }

    fn in_word(self, x: i64) -> u32 {
        match self {
            None => 0,
            Some(_) => (1 - x.unsigned_abs()) as u32,
        }
    }
}
