// The calls of a sheet's lines, each with its answer.
ghost use Rattle.std.specs.Prelude.{◌≡◌, ◌≤◌, ◌<◌, map, length, take};
ghost use Rattle.text.specs.Given.{given};
ghost use Rattle.text.specs.Lines as text_lines;
ghost use Rattle.lives.specs.Life.{call_of};
ghost use Rattle.lives.specs.declared.types.Call.TheVariants.{Do};
ghost use Rattle.sheets.specs.History.{says};
ghost use Rattle.sheets.specs.Entries.{calls, deeds, kept};

use lines::columns::Columns;
use lines::deed::deed_of;
use lines::faults::{LineFault, SheetFault};
use lives::types::{Answer, Call, Deed, Entry};
use text::lines::{Lines, Unended};

// A sheet has at most this many calls: a line of six fields has six bytes, and the seal comes last.
pub(crate) const MOST: usize = 683;

// How many calls were read, and the first line that gives none.
#[derive(Clone, Copy)]
pub(crate) struct Reading {
    pub(crate) calls: usize,
    pub(crate) kept: Result<(), SheetFault>,
}

// What a line says, if it is ended.
fn says(columns: &Columns, line: Result<&[u8], Unended<'_>>) -> Result<Deed, LineFault>
    ensures { result ≡ says columns.now (given line.entry) }
{
    deed_of(columns, line?)
}

// A call that has no answer yet.
pub(crate) fn unanswered(call: Call<'_>) -> Entry<'_>
    ensures call { result.call ≡ call.entry }
    ensures answer { result.answer ≡ Answer.OutOfState }
{
    Entry {
        call,
        answer: Answer::OutOfState,
    }
}

// Reads the calls of the lines, the first of which has the number 2, up to the first that gives none.
pub(crate) fn read_lines(entries: &mut [Entry<'_>], columns: &Columns, lines: Lines<'_>) -> Reading
    requires room { length entries.old ≡ 683 }
    requires short { length (text_lines.sheet (text_lines.lines lines.rest.now)) ≤ 4096 }
    ensures calls { result.calls ≡ length (deeds (map (says columns.now) (text_lines.lines lines.entry.rest.now))) }
    ensures few { result.calls < 683 }
    ensures kept { result.kept ≡ kept 2 (map (says columns.now) (text_lines.lines lines.entry.rest.now)) }
    ensures entries { map call_of (take result.calls entries.new) ≡ map Do (deeds (map (says columns.now) (text_lines.lines lines.entry.rest.now))) }
{
    let mut calls = 0;
    for line in lines {
        match says(columns, line) {
            Ok(deed) => {
                entries[calls] = unanswered(Call::Do(deed));
                calls += 1;
            }
            Err(fault) => {
                let number = calls as u32 + 2;
                let kept = Err(SheetFault {
                    line: number,
                    fault,
                });
                return Reading { calls, kept };
            }
        }
    }
    Reading {
        calls,
        kept: Ok(()),
    }
}

// Reads the lines' calls, and sets the seal behind them where every line gives one.
pub(crate) fn read_calls(entries: &mut [Entry<'_>], columns: &Columns, lines: Lines<'_>) -> Reading
    requires room { length entries.old ≡ 683 }
    requires short { length (text_lines.sheet (text_lines.lines lines.rest.now)) ≤ 4096 }
    ensures few { result.calls ≤ 683 }
    ensures kept { result.kept ≡ kept 2 (map (says columns.now) (text_lines.lines lines.entry.rest.now)) }
    ensures entries { map call_of (take result.calls entries.new) ≡ calls (map (says columns.now) (text_lines.lines lines.entry.rest.now)) }
{
    let Reading { calls, kept } = read_lines(entries, columns, lines);
    if kept.is_err() {
        return Reading { calls, kept };
    }
    entries[calls] = unanswered(Call::Seal);
    Reading {
        calls: calls + 1,
        kept,
    }
}
