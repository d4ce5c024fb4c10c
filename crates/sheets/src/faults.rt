// Why a sheet is not answered.
ghost use Rattle.std.specs.Prelude.{◌≡◌};
ghost use Rattle.sheets.specs.Numbers.{refusal};

#[derive(Clone, Copy, PartialEq, Eq, Debug)]
pub enum SizeFault {
    // the input has so many bytes, more than 4096
    Input(usize),
    // the output has so many bytes, fewer than 4096
    Output(usize),
}

impl SizeFault {
    // The number of the refusal. Stays a number: callers are told it, as docs/REFUSALS.md lists it.
    pub fn number(&self) -> u8
        ensures { result ≡ refusal self.now }
    {
        match self {
            SizeFault::Input(_) | SizeFault::Output(_) => 19,
        }
    }
}
