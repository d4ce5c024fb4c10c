// A script from its first line on.
ghost use Rattle.std.specs.Prelude.{◌≡◌, ◌≤◌, Some, IfOk, IfErr, IfSome, ◌<◌, length, Err};
ghost use Rattle.std.specs.Io.KnownBytes.{Keeps};
ghost use Rattle.scripts.specs.declared.faults.ScriptFault.TheVariants.{TooLong};
ghost use Rattle.store.specs.Halves.{held};
ghost use Rattle.text.specs.Lines as text_lines;
ghost use Rattle.scripts.specs.Whole.{sized, shown_head, OnStore, OnZeros, Refused, WholeAnswered};

use crate::faults::ScriptFault;
use crate::script::run;
use crate::size::size_of;
use std::io::Write;
use store::bytes::Bytes;
use text::lines::Lines;

// The size that the first line of a script gives, and the lines after it.
fn head(script: &[u8]) -> Option<(usize, Lines<'_>)>
    ensures is { shown_head result ≡ sized (text_lines.lines script.now) }
    ensures most { IfSome result (λ h. h.0 ≤ 32768) }
{
    let mut lines = Lines::of(script);
    let size = size_of(lines.next()?.ok()?)?;
    Some((size, lines))
}

// Runs the calls of some lines over the store that a memory's bytes are.
fn on_bytes<W: Write>(lines: Lines<'_>, memory: &mut [u8], out: &mut W) -> Result<(), ScriptFault>
    ensures answered { IfOk result (λ _. OnStore (text_lines.lines lines.entry.rest.now) (held 0 memory.old) (W.contents out.old) (W.contents out.new)) }
    ensures refused { IfErr result (λ e. Refused e (Some (0, text_lines.lines lines.entry.rest.now)) (W.contents out.old) (W.contents out.new)) }
{
    let mut store = Bytes::new(memory, 0);
    run(lines, &mut store, out)
}

// The same over a store of that many zeros.
fn on_zeros<W: Write>(lines: Lines<'_>, size: usize, out: &mut W) -> Result<(), ScriptFault>
    requires { size ≤ 32768 }
    ensures answered { IfOk result (λ _. OnZeros (text_lines.lines lines.entry.rest.now) size (W.contents out.old) (W.contents out.new)) }
    ensures refused { IfErr result (λ e. Refused e (Some (0, text_lines.lines lines.entry.rest.now)) (W.contents out.old) (W.contents out.new)) }
{
    let mut memory = [0u8; 65536];
    on_bytes(lines, &mut memory[..2 * size], out)
}

// Answers a script of any length.
fn answer_lines<W: Write>(script: &[u8], out: &mut W) -> Result<(), ScriptFault>
    ensures answered { IfOk result (λ _. WholeAnswered (sized (text_lines.lines script.now)) (W.contents out.old) (W.contents out.new)) }
    ensures refused { IfErr result (λ e. Refused e (sized (text_lines.lines script.now)) (W.contents out.old) (W.contents out.new)) }
{
    let Some((size, lines)) = head(script) else {
        writeln!(out, "unknown")?;
        return Ok(());
    };
    on_zeros(lines, size, out)
}

// Answers a script: its calls' answers and the halfwords then used, or `unknown` where its first line gives no size.
// Refuses one of more than 262144 bytes, or with more in it than there is room for, and then writes nothing.
pub fn answer<W: Write>(script: &[u8], out: &mut W) -> Result<(), ScriptFault>
    ensures answered { IfOk result (λ _. (length script.now ≤ 262144) × WholeAnswered (sized (text_lines.lines script.now)) (W.contents out.old) (W.contents out.new)) }
    ensures refused { length script.now ≤ 262144 → IfErr result (λ e. Refused e (sized (text_lines.lines script.now)) (W.contents out.old) (W.contents out.new)) }
    ensures long { 262144 < length script.now → (result ≡ Err TooLong) × Keeps (W.contents out.old) (W.contents out.new) }
{
    if script.len() > 262144 {
        return Err(ScriptFault::TooLong);
    }
    answer_lines(script, out)
}
