// Words of a fixed generator.
ghost use Rattle.std.specs.Prelude.{◌≡◌, ◌/◌, ◌^◌};
ghost use Rattle.sweep.specs.Outcomes.{Counted};
ghost use Rattle.sweep.specs.Drawing.{stepped, drawn};

use crate::tally::Tally;

// A linear congruential generator of 64 bits, of which a word is the upper half.
#[derive(Drop)]
struct Drawing {
    state: u64,
}

impl Drawing {
    // The next word.
    fn next_word(&mut self) -> u32
        ensures word { result ≡ self.old.state / 2 ^ 32 }
        ensures state { self.new.state ≡ stepped self.old.state }
    {
        let word = (self.state >> 32) as u32;
        self.state = self
            .state
            .wrapping_mul(6364136223846793005)
            .wrapping_add(1442695040888963407);
        word
    }
}

// The counts of a million words.
pub(crate) fn of_drawn() -> Tally
    ensures counted { Counted drawn 1000000 result.read result.unread }
    ensures other { result.other ≡ 0 }
{
    let mut tally = Tally {
        read: 0,
        unread: 0,
        other: 0,
    };
    let mut drawing = Drawing { state: 1 };
    for _ in 0..1000000u32 {
        tally.add(drawing.next_word());
    }
    tally
}
