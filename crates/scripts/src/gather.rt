// The slots and values of all changes of a script, in one list.
ghost use Rattle.std.specs.Prelude.{◌≡◌, ◌+◌, ◌<◌, ◌≤◌, ◌++◌, length, take, map, MatchOption};
ghost use Rattle.text.specs.Given.{given};
ghost use Rattle.text.specs.Lines as text_lines;
ghost use Rattle.scripts.specs.Lines.{said_of, shown};
ghost use Rattle.scripts.specs.Script.{text_of, says, edits_said, all_edits};

use crate::line::{Asked, Said};
use changing::edits::Edit;
use text::lines::{Lines, Unended};

// A line's text, with or without a newline at its end.
fn text_of<'a>(line: Result<&'a [u8], Unended<'a>>) -> &'a [u8]
    ensures { result.now ≡ text_of (given line.entry) }
{
    line.unwrap_or_else(|Unended(text)| text)
}

// What a line says.
pub(crate) fn said_of(line: Result<&[u8], Unended<'_>>) -> Said
    ensures { shown result ≡ said_of (text_of (given line.entry)) }
{
    Said::of(text_of(line))
}

impl Said {
    // The slots and values that it names.
    pub(crate) fn edits(&self) -> &[Edit]
        ensures { result.now ≡ edits_said (shown self.now) }
    {
        match self {
            Said::Call(Asked::Change(edits)) => edits.as_slice(),
            _ => &[],
        }
    }
}

// Writes a list into another from a place on, and tells the place behind it; none where it does not fit.
fn append(pool: &mut [Edit], at: usize, list: &[Edit]) -> Option<usize>
    requires { at ≤ length pool.old }
    ensures answer { MatchOption result (length pool.old < at + length list.now) (λ end. (end ≡ at + length list.now) × (end ≤ length pool.old) × (take end pool.new ≡ take at pool.old ++ list.now)) }
    ensures size { length pool.new ≡ length pool.old }
{
    if list.len() > pool.len() - at {
        return None;
    }
    let end = at + list.len();
    pool[at..end].copy_from_slice(list);
    Some(end)
}

// Copies the slots and values of all changes into a list, in order, and tells how many they are; none where they do not fit.
pub(crate) fn gather(lines: Lines<'_>, pool: &mut [Edit]) -> Option<usize>
    ensures answer { MatchOption result (length pool.old < length (all_edits (says (text_lines.lines lines.entry.rest.now)))) (λ n. (n ≤ length pool.old) × (take n pool.new ≡ all_edits (says (text_lines.lines lines.entry.rest.now)))) }
    ensures size { length pool.new ≡ length pool.old }
{
    let mut end = 0;
    for line in lines {
        end = append(pool, end, said_of(line).edits())?;
    }
    Some(end)
}
