// The text that answers a script.
ghost use Rattle.std.specs.Prelude.{◌≡◌, ◌≤◌, ◌∷◌, length, map, take, drop, IfOk};
ghost use Rattle.std.specs.Io.KnownBytes.{Appends};
ghost use Rattle.text.specs.Lines as text_lines;
ghost use Rattle.text.specs.Written.{hex};
ghost use Rattle.scripts.specs.Lines.{shown};
ghost use Rattle.scripts.specs.Script.{says, first_text, line_text, left, answers_text, halves_text, words_text, answer_of};

use crate::gather::said_of;
use crate::line::Said;
use crate::told::Told;
use lives::types::Entry;
use std::io;
use std::io::Write;
use store::store::{Store, half_at};
use text::lines::Lines;
use text::writing::Text;

// Writes the first of the answers that are left, if there is one, and tells how many it wrote.
fn write_first<W: Write>(out: &mut W, answers: &[Entry<'_>]) -> io::Result<usize>
    ensures { IfOk result (λ n. (n ≤ length answers.now) × (drop n (map answer_of answers.now) ≡ drop 1 (map answer_of answers.now)) × Appends (W.contents out.old) (W.contents out.new) (first_text (map answer_of answers.now))) }
{
    let Some(first) = answers.first() else {
        return Ok(0);
    };
    writeln!(out, "{}", Told(first.answer))?;
    Ok(1)
}

// Writes the line that answers what a line says, and tells how many of the answers left it wrote.
fn write_line<W: Write>(out: &mut W, said: &Said, answers: &[Entry<'_>]) -> io::Result<usize>
    ensures { IfOk result (λ n. (n ≤ length answers.now) × (drop n (map answer_of answers.now) ≡ left (shown said.now) (map answer_of answers.now)) × Appends (W.contents out.old) (W.contents out.new) (line_text (shown said.now) (map answer_of answers.now))) }
{
    match said {
        Said::Call(_) => return write_first(out, answers),
        Said::NoInstruction(fault) => {
            let number = fault.number();
            writeln!(out, "refused {number}")?;
        }
        Said::Unknown => writeln!(out, "unknown")?,
    }
    Ok(0)
}

// Writes the lines that answer those of a script, by the answers of its calls.
pub(crate) fn write_answers<W: Write>(
    out: &mut W,
    lines: Lines<'_>,
    answers: &[Entry<'_>],
) -> io::Result<()>
    ensures { IfOk result (λ _. Appends (W.contents out.old) (W.contents out.new) (answers_text (says (text_lines.lines lines.entry.rest.now)) (map answer_of answers.now))) }
{
    let mut done = 0;
    for line in lines {
        done += write_line(out, &said_of(line), &answers[done..])?;
    }
    Ok(())
}

// Writes a halfword in four digits, behind a space.
fn write_half<W: Write>(out: &mut W, half: u16) -> io::Result<()>
    ensures { IfOk result (λ _. Appends (W.contents out.old) (W.contents out.new) (32 ∷ hex 4 half)) }
{
    let mut text: Text<5> = Text::new();
    text.write_bytes(b" ");
    text.write_hex(u32::from(half), 4);
    out.write_all(text.as_bytes())
}

// Writes the used halfwords.
fn write_halves<S: Store, W: Write>(out: &mut W, store: &S, used: usize) -> io::Result<()>
    requires { used ≤ length (S.halfwords store.now) }
    ensures { IfOk result (λ _. Appends (W.contents out.old) (W.contents out.new) (halves_text (take used (S.halfwords store.now)))) }
{
    for place in 0..used {
        write_half(out, half_at(store, place))?;
    }
    Ok(())
}

// Writes the line of the used halfwords.
pub(crate) fn write_words<S: Store, W: Write>(out: &mut W, store: &S, used: usize) -> io::Result<()>
    requires { used ≤ length (S.halfwords store.now) }
    ensures { IfOk result (λ _. Appends (W.contents out.old) (W.contents out.new) (words_text (take used (S.halfwords store.now)))) }
{
    write!(out, "words")?;
    write_halves(out, store, used)?;
    writeln!(out)
}
