// Counts over the lines of a text.
ghost use Rattle.std.specs.Prelude.{◌≡◌, ◌≤◌};
ghost use Rattle.text.specs.Lines.{lines};
ghost use Rattle.replay.specs.Tallies.{line_count, equal_count};

use crate::line::agrees;
use text::lines::Lines;

#[derive(Clone, Copy, Default)]
pub struct Tally {
    pub lines: usize,
    // lines that tell the answer here
    pub equal: usize,
}

pub(crate) fn counted(text: &[u8]) -> Tally
    ensures lines { result.lines ≡ line_count (lines text.now) }
    ensures equal { result.equal ≡ equal_count (lines text.now) }
    ensures within { result.equal ≤ result.lines }
{
    let mut tally = Tally::default();
    // Stays: behind `filter_map` a step passes over any number of unended lines, and the counts of the lines left are not found.
    for line in Lines::of(text) {
        if let Ok(line) = line {
            tally.lines += 1;
            tally.equal += usize::from(agrees(line));
        }
    }
    tally
}
