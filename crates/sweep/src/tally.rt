// Counts of what comes of reading words.
ghost use Rattle.std.specs.Prelude.{◌≡◌, ℕ, ◌+◌, ◌<◌};
ghost use Rattle.sweep.specs.Outcomes.{Counted, itself};

use crate::outcome::{Outcome, read_and_write};

#[derive(Clone, Copy)]
pub struct Tally {
    pub read: usize,
    pub unread: usize,
    pub other: usize,
}

impl Tally {
    // Counts one word more.
    pub(crate) fn add(&mut self, word: u32)
        requires { self.old.read + self.old.unread < 4294967296 }
        ensures counted { (words : ℕ → ℕ) → (n : ℕ) → words n ≡ word → Counted words n self.old.read self.old.unread → Counted words (n + 1) self.new.read self.new.unread }
        ensures all { self.new.read + self.new.unread ≡ self.old.read + self.old.unread + 1 }
        ensures other { self.new.other ≡ self.old.other }
    {
        match read_and_write(word) {
            Outcome::Unread => self.unread += 1,
            Outcome::Itself => self.read += 1,
            Outcome::Other => self.other += 1,
        }
    }
}

// The counts of the words below 65536.
pub(crate) fn of_low() -> Tally
    ensures counted { Counted itself 65536 result.read result.unread }
    ensures other { result.other ≡ 0 }
{
    let mut tally = Tally {
        read: 0,
        unread: 0,
        other: 0,
    };
    for word in 0..65536u32 {
        tally.add(word);
    }
    tally
}
