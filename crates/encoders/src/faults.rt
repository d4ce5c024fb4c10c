// Why an encoder answers no word.
ghost use Rattle.std.specs.Prelude.{◌≡◌};
ghost use Rattle.encoders.specs.Encodings.{fault_number};
ghost use Rattle.encoders.specs.declared.faults.EncodeFault.TheVariants.{Code as Code-fault};

use formats::faults::WideCode;

#[derive(Clone, Copy, PartialEq, Eq, Debug)]
pub enum EncodeFault {
    // a plain field is too wide
    Code(WideCode),
    // the distance is odd
    Odd(i16),
    // the operation has no such word
    Operation,
}

impl EncodeFault {
    // The number of the refusal. Stays a number: callers are told it, as docs/REFUSALS.md lists it.
    pub fn number(&self) -> u32
        ensures { result ≡ fault_number self.now }
    {
        match self {
            EncodeFault::Code(_) | EncodeFault::Odd(_) => 2,
            EncodeFault::Operation => 3,
        }
    }
}

impl From<WideCode> for EncodeFault {
    ghost from_gives = { λ e f. f ≡ Code-fault e };

    fn from(e: WideCode) -> EncodeFault {
        EncodeFault::Code(e)
    }
}
