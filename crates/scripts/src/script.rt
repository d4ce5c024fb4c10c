// A whole script.
ghost use Rattle.std.specs.Prelude.{◌≡◌, false, Err, MatchResult};
ghost use Rattle.text.specs.Lines as text_lines;
ghost use Rattle.scripts.specs.Answered.{Answered, Untouched, roomy};
ghost use Rattle.scripts.specs.Script.{says};
ghost use Rattle.scripts.specs.declared.faults.ScriptFault.TheVariants.{TooLong};

use crate::answering::{write_answers, write_words};
use crate::faults::ScriptFault;
use crate::gather::gather;
use crate::listing::list_calls;
use changing::edits::Edit;
use lives::types::{Answer, Call, Entry};
use programs::run::live;
use records::book::Book;
use std::io::Write;
use store::store::Store;
use text::lines::Lines;

// Runs a script's calls on a fresh program over a store, and writes their answers and the halfwords then used.
// Refuses a script with more calls, or more slots and values, than there is room for, and then writes nothing.
pub fn run<S: Store, W: Write>(
    lines: Lines<'_>,
    store: &mut S,
    out: &mut W,
) -> Result<(), ScriptFault>
    ensures answered { MatchResult result (λ _. Answered (text_lines.lines lines.entry.rest.now) (S.halfwords store.old) (S.halfwords store.new) (W.contents out.old) (W.contents out.new)) (λ e. Untouched e (says (text_lines.lines lines.entry.rest.now)) (S.halfwords store.old) (S.halfwords store.new) (W.contents out.old) (W.contents out.new)) }
    ensures room { roomy (says (text_lines.lines lines.entry.rest.now)) ≡ false → result ≡ Err TooLong }
{
    let mut edits = [Edit { slot: 0, value: 0 }; 8192];
    let count = gather(lines, &mut edits).ok_or(ScriptFault::TooLong)?;
    let mut entries = [Entry {
        call: Call::Seal,
        answer: Answer::OutOfState,
    }; 4096];
    let calls = list_calls(lines, &edits[..count], &mut entries).ok_or(ScriptFault::TooLong)?;
    let entries = &mut entries[..calls];
    let mut book = Book::new();
    let used = live(store, &mut book, entries);
    write_answers(out, lines, entries)?;
    write_words(out, store, used)?;
    Ok(())
}
