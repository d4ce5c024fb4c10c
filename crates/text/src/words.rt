// A word of a program.
ghost use Rattle.std.specs.Prelude.{◌≡◌};
ghost use Rattle.text.specs.Words.{halves_of};

// One halfword, or two.
// Stays beside the halfwords of instructions: a store takes those one by one, and a text writes the digits of one number.
#[derive(Clone, Copy, PartialEq, Eq, Debug)]
pub enum Word {
    Short(u16),
    Wide(u32),
}

impl Word {
    // How many halfwords it has.
    pub fn halves(self) -> usize
        ensures { result ≡ halves_of self }
    {
        match self {
            Word::Short(_) => 1,
            Word::Wide(_) => 2,
        }
    }
}
