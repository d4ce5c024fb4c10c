// The register that a pair puts its number into.
ghost use Rattle.std.specs.Prelude.{◌≡◌, true, false, MatchOption};
ghost use Rattle.pairs.specs.Pairs.{holds_number};

// 1 to 31.
#[derive(Clone, Copy)]
pub struct PairRegister {
    number: i64,
    ghost ok: { holds_number number ≡ true },
}

impl PairRegister {
    pub fn new(number: i64) -> Option<PairRegister>
        ensures { MatchOption result (holds_number number ≡ false) (λ p. p.number ≡ number) }
    {
        if (1..=31).contains(&number) {
            Some(PairRegister { number })
        } else {
            None
        }
    }

    pub fn number(&self) -> i64
        ensures { result ≡ self.now.number }
    {
        self.number
    }
}
