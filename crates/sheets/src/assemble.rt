// A sheet's calls, answered one after another by its program.
ghost use Rattle.std.specs.Prelude.{◌≡◌, ◌≤◌, ◌<◌, map, length, take};
ghost use Rattle.text.specs.Lines as text_lines;
ghost use Rattle.lives.specs.Life.{call_of, given_up};
ghost use Rattle.lives.specs.Listing.{start, end};
ghost use Rattle.text.specs.Given.{given};
ghost use Rattle.sheets.specs.History.{named_by, says, ended_by_seal, history};
ghost use Rattle.sheets.specs.Entries.{answer_of, answers, reached, outcome, Holds, Answered, Comes};

use crate::entries::{MOST, read_calls, unanswered};
use crate::refusals::taken;
use lines::columns::Columns;
use lines::faults::{LineFault, SheetFault};
use lives::types::{Call, Entry};
use programs::run::live;
use records::book::Book;
use store::store::Store;
use text::lines::{Lines, Unended};

// Answers the calls in order, and tells how many halfwords are used then.
fn run<S: Store>(store: &mut S, entries: &mut [Entry<'_>]) -> usize
    ensures calls { map call_of entries.new ≡ map call_of entries.old }
    ensures answers { map answer_of entries.new ≡ answers (length (S.halfwords store.old)) start (map call_of entries.old) }
    ensures holds { Holds (reached (length (S.halfwords store.old)) start (map call_of entries.old)) (S.halfwords store.new) }
    ensures used { result ≡ end (given_up (reached (length (S.halfwords store.old)) start (map call_of entries.old))).listing }
    ensures size { length (S.halfwords store.new) ≡ length (S.halfwords store.old) }
{
    let mut book = Book::new();
    live(store, &mut book, entries)
}

// Answers the calls and tells how many halfwords are used then, or the first that is refused, with its line.
fn answered<S: Store>(store: &mut S, entries: &mut [Entry<'_>]) -> Result<usize, SheetFault>
    requires { length entries.old ≤ 683 }
    ensures answer { Answered (outcome (length (S.halfwords store.old)) (map call_of entries.old)) result (S.halfwords store.new) }
    ensures size { length (S.halfwords store.new) ≡ length (S.halfwords store.old) }
{
    let used = run(store, entries);
    taken(entries)?;
    Ok(used)
}

// The history of the lines' calls and the seal.
fn lines_history<S: Store>(
    store: &mut S,
    columns: &Columns,
    lines: Lines<'_>,
) -> Result<usize, SheetFault>
    requires { length (text_lines.sheet (text_lines.lines lines.rest.now)) ≤ 4096 }
    ensures { Comes (length (S.halfwords store.old)) (ended_by_seal (length (S.halfwords store.old)) (map (says columns.now) (text_lines.lines lines.entry.rest.now))) result (S.halfwords store.new) }
{
    let mut all = [unanswered(Call::Seal); MOST];
    let reading = read_calls(&mut all, columns, lines);
    let entries = &mut all[..reading.calls];
    let used = answered(store, entries)?;
    reading.kept?;
    Ok(used)
}

// The columns that a line names, if it is ended.
fn columns_of(line: Result<&[u8], Unended<'_>>) -> Option<Columns>
    ensures { result ≡ named_by (given line.entry) }
{
    Columns::of(line.ok()?)
}

// Takes a sheet into a program, and tells how many halfwords that has.
pub(crate) fn assemble<S: Store>(input: &[u8], store: &mut S) -> Result<usize, SheetFault>
    requires { length input.now ≤ 4096 }
    ensures { Comes (length (S.halfwords store.old)) (history (length (S.halfwords store.old)) (text_lines.lines input.now)) result (S.halfwords store.new) }
{
    let names = SheetFault {
        line: 1,
        fault: LineFault::Names,
    };
    let mut lines = Lines::of(input);
    let columns = lines.next().and_then(columns_of).ok_or(names)?;
    lines_history(store, &columns, lines)
}
