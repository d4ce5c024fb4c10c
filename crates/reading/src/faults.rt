// Why nothing is read.
ghost use Rattle.std.specs.Prelude.{◌≡◌};
ghost use Rattle.reading.specs.Numbers.{refusal};

#[derive(Clone, Copy, PartialEq, Eq, Debug)]
pub enum ReadFault {
    // the place, or the second halfword of the word there, is outside the store
    Outside(usize),
    // the word is no instruction's
    NoInstruction(u32),
}

impl ReadFault {
    // The number of the refusal. Stays a number: callers are told it, as docs/REFUSALS.md lists it.
    pub fn number(&self) -> u8
        ensures { result ≡ refusal self.now }
    {
        match self {
            ReadFault::Outside(_) => 14,
            ReadFault::NoInstruction(_) => 15,
        }
    }
}
