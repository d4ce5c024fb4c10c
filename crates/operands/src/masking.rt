// Whether a vector operation is masked, by v0.
ghost use Rattle.std.specs.Prelude.{◌≡◌, ◌<◌};
ghost use Rattle.operands.specs.Masks.{mask_bit, masked};

#[derive(Clone, Copy, PartialEq, Eq, Debug)]
pub enum VecOpMasking {
    Enabled,
    Disabled,
}

// Bit 25 of the word.
impl From<VecOpMasking> for u32 {
    ghost from_gives = { λ m n. n ≡ mask_bit m };

    fn from(m: VecOpMasking) -> u32 {
        match m {
            VecOpMasking::Enabled => 0,
            VecOpMasking::Disabled => 1,
        }
    }
}

impl VecOpMasking {
    pub fn is_enabled(&self) -> bool
        ensures { result ≡ masked self.now }
    {
        matches!(self, VecOpMasking::Enabled)
    }

    // Bit 25 of the word.
    pub fn encode(&self) -> u32
        ensures is { result ≡ mask_bit self.now }
        ensures narrow { result < 2 }
    {
        u32::from(*self)
    }

    // The masking whose bit this is.
    // Stays: it asks for one bit, since a format holds a plain field of a word and the fact that it fits.
    pub fn of_bits(bits: u32) -> VecOpMasking
        requires { bits < 2 }
        ensures { mask_bit result ≡ bits }
    {
        if bits == 0 {
            VecOpMasking::Enabled
        } else {
            VecOpMasking::Disabled
        }
    }
}
