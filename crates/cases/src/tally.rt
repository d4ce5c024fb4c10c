// How many of some cases, or of some vectors, hold.
ghost use Rattle.std.specs.Prelude.{◌≡◌, ◌≤◌, length};
ghost use Rattle.text.specs.Lines.{lines};
ghost use Rattle.cases.specs.Tallies.{cases_held, line_count, lines_held};

use crate::case::Case;
use crate::line::agrees;
use text::lines::Lines;

#[derive(Clone, Copy, Default)]
pub struct Tally {
    pub all: usize,
    // those that hold
    pub held: usize,
}

pub(crate) fn of_cases(cases: &[Case]) -> Tally
    ensures all { result.all ≡ length cases.now }
    ensures held { result.held ≡ cases_held cases.now }
    ensures within { result.held ≤ result.all }
{
    let mut held = 0;
    for case in cases {
        held += usize::from(case.holds());
    }
    Tally {
        all: cases.len(),
        held,
    }
}

// The lines whose word is that of their operation and fields.
pub(crate) fn of_lines(text: &[u8]) -> Tally
    ensures all { result.all ≡ line_count (lines text.now) }
    ensures held { result.held ≡ lines_held (lines text.now) }
    ensures within { result.held ≤ result.all }
{
    let mut tally = Tally::default();
    for line in Lines::of(text) {
        if let Ok(line) = line {
            tally.all += 1;
            tally.held += usize::from(agrees(line));
        }
    }
    tally
}
