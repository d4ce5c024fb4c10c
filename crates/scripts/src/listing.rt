// The calls that a script lists.
ghost use Rattle.std.specs.Prelude.{◌≡◌, ◌+◌, ◌<◌, ◌≤◌, ◌++◌, [], ◌∷◌, length, take, map, MatchOption};
ghost use Rattle.text.specs.Lines as text_lines;
ghost use Rattle.lives.specs.Life.{call_of};
ghost use Rattle.scripts.specs.Lines.{shown_asked};
ghost use Rattle.scripts.specs.Script.{says, edits_asked, all_edits, calls, shown_call};

use crate::gather::said_of;
use crate::line::{Asked, Said};
use changing::edits::Edit;
use lives::types::{Answer, Call, Entry};
use text::lines::Lines;

impl Asked {
    // The call, with these slots and values where it is a change.
    fn call<'a>(&self, edits: &'a [Edit]) -> Call<'a>
        requires { edits.now ≡ edits_asked (shown_asked self.now) }
        ensures { shown_call result ≡ shown_asked self.now }
    {
        match self {
            Asked::Do(deed) => Call::Do(*deed),
            Asked::Try => Call::Try,
            Asked::Keep => Call::Keep,
            Asked::GiveUp => Call::GiveUp,
            Asked::Seal => Call::Seal,
            Asked::Change(_) => Call::Change(edits),
            Asked::Value(slot) => Call::Value(*slot),
        }
    }
}

// Writes the calls of a script into a list of entries, in order, and tells how many they are; none where they do not fit.
// Their slots and values stand in `edits`.
pub(crate) fn list_calls<'a>(
    lines: Lines<'_>,
    edits: &'a [Edit],
    entries: &mut [Entry<'a>],
) -> Option<usize>
    requires { edits.now ≡ all_edits (says (text_lines.lines lines.rest.now)) }
    ensures answer { MatchOption result (length entries.old < length (calls (says (text_lines.lines lines.entry.rest.now)))) (λ n. (n ≤ length entries.old) × (map shown_call (map call_of (take n entries.new)) ≡ calls (says (text_lines.lines lines.entry.rest.now)))) }
    ensures size { length entries.new ≡ length entries.old }
{
    let mut count = 0;
    let mut rest = edits;
    for line in lines {
        let said = said_of(line);
        let (own, others) = rest.split_at(said.edits().len());
        rest = others;
        if let Said::Call(asked) = &said {
            count = append(entries, count, asked.call(own))?;
        }
    }
    Some(count)
}

// Writes a call into the list of entries at a place, and tells the next place; none where there is no room.
fn append<'a>(entries: &mut [Entry<'a>], at: usize, call: Call<'a>) -> Option<usize>
    ensures answer { MatchOption result (length entries.old ≤ at) (λ end. (end ≡ at + 1) × (at < length entries.old) × (map call_of (take end entries.new) ≡ map call_of (take at entries.old) ++ (call.entry ∷ []))) }
    ensures size { length entries.new ≡ length entries.old }
{
    if at >= entries.len() {
        return None;
    }
    entries[at] = Entry {
        call,
        answer: Answer::OutOfState,
    };
    Some(at + 1)
}
