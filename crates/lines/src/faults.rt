// Why a line of a sheet is refused.
ghost use Rattle.std.specs.Prelude.{◌≡◌};
ghost use Rattle.lines.specs.declared.faults.LineFault.TheVariants.{NoNewline, Emit, Constant, Jump, Bind, Seal};
ghost use Rattle.lines.specs.Numbers.{refusal, sheet_refusal};

use bits::part::Field;
use calls::faults::{BindFault, ConstantFault, PlaceFault};
use program::faults::EmitFault;
use sealing::faults::SealFault;
use text::lines::Unended;

#[derive(Clone, Copy, PartialEq, Eq, Debug)]
pub enum LineFault {
    // the first line is not the six names, or has no newline, or is not there
    Names,
    // so many fields, and not six
    FieldCount(usize),
    // no newline at the end
    NoNewline,
    // no operation has that name
    UnknownOperation,
    // that field is no number of signed 64 bits
    NoNumber(Field),
    // that field is not used and has this value, not 0
    Unused(Field, i64),
    // the instruction is not emitted
    Emit(EmitFault),
    // the constant is not made
    Constant(ConstantFault),
    // the jump is not placed
    Jump(PlaceFault),
    // the label is not bound
    Bind(BindFault),
    // the program is not sealed
    Seal(SealFault),
}

impl From<EmitFault> for LineFault {
    ghost from_gives = { λ e l. l ≡ Emit e };

    fn from(e: EmitFault) -> LineFault {
        LineFault::Emit(e)
    }
}

impl From<ConstantFault> for LineFault {
    ghost from_gives = { λ c l. l ≡ Constant c };

    fn from(c: ConstantFault) -> LineFault {
        LineFault::Constant(c)
    }
}

impl From<PlaceFault> for LineFault {
    ghost from_gives = { λ p l. l ≡ Jump p };

    fn from(p: PlaceFault) -> LineFault {
        LineFault::Jump(p)
    }
}

impl From<BindFault> for LineFault {
    ghost from_gives = { λ b l. l ≡ Bind b };

    fn from(b: BindFault) -> LineFault {
        LineFault::Bind(b)
    }
}

impl From<SealFault> for LineFault {
    ghost from_gives = { λ s l. l ≡ Seal s };

    fn from(s: SealFault) -> LineFault {
        LineFault::Seal(s)
    }
}

impl From<Unended<'_>> for LineFault {
    ghost from_gives = { λ _ l. l ≡ NoNewline };

    fn from(_unended: Unended<'_>) -> LineFault {
        LineFault::NoNewline
    }
}

impl LineFault {
    // The number of the refusal. Stays a number: callers are told it, as docs/REFUSALS.md lists it.
    pub fn number(&self) -> u8
        ensures { result ≡ refusal self.now }
    {
        match self {
            LineFault::Names => 16,
            LineFault::FieldCount(_) | LineFault::NoNewline => 17,
            LineFault::UnknownOperation | LineFault::NoNumber(_) => 18,
            LineFault::Unused(_, _) => 3,
            LineFault::Emit(e) => e.number(),
            LineFault::Constant(c) => c.number(),
            LineFault::Jump(p) => p.number(),
            LineFault::Bind(b) => b.number(),
            LineFault::Seal(s) => s.number(),
        }
    }
}

// The first fault of a sheet: its line, counted from 1, and the line's fault whole.
#[derive(Clone, Copy, PartialEq, Eq, Debug)]
pub struct SheetFault {
    pub line: u32,
    pub fault: LineFault,
}

impl SheetFault {
    // The number of the refusal. Stays a number: callers are told it, as docs/REFUSALS.md lists it.
    pub fn number(&self) -> u8
        ensures { result ≡ sheet_refusal self.now }
    {
        self.fault.number()
    }
}
