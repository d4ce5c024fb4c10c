// What the answers to a sheet's calls say.
ghost use Rattle.std.specs.Prelude.{◌≡◌, ◌+◌, ◌≤◌, length, map, slice_index_or};
ghost use Rattle.std.specs.List.{slice_get};
ghost use Rattle.lives.specs.Life.{call_of};
ghost use Rattle.sheets.specs.History.{refused, accepted, seal_line, at_jump};
ghost use Rattle.sheets.specs.Entries.{answer_of, call_jumps, call_lines, first_fault};

use lines::faults::{LineFault, SheetFault};
use lives::types::{Answer, Call, Deed, Entry, Fault};
use sealing::faults::SealFault;

// Why a call is refused, as a fault of its line.
fn refused(fault: &Fault) -> Result<(), LineFault>
    ensures { result ≡ refused fault.now }
{
    match fault {
        Fault::Emit(e) => Err(LineFault::from(*e)),
        Fault::Constant(c) => Err(LineFault::from(*c)),
        Fault::Jump(p) => Err(LineFault::from(*p)),
        Fault::Bind(b) => Err(LineFault::from(*b)),
        Fault::Seal(s) => Err(LineFault::from(*s)),
        Fault::Change(_) | Fault::Value(_) => Ok(()),
    }
}

fn accepted(answer: &Answer) -> Result<(), LineFault>
    ensures { result ≡ accepted answer.now }
{
    match answer {
        Answer::Refused(fault) => refused(fault),
        Answer::Taken | Answer::Held(_) | Answer::OutOfState => Ok(()),
    }
}

fn is_jump(call: &Call<'_>) -> bool
    ensures { result ≡ call_jumps call.now }
{
    matches!(call, Call::Do(Deed::Jump(_)))
}

// The line of the jump of that number: the first call is that of line 2.
fn jump_line(entries: &[Entry<'_>], jump: usize) -> Option<u32>
    requires { length entries.now ≤ 683 }
    ensures { result ≡ slice_get (call_lines 2 (map call_of entries.now)) jump }
{
    let mut before = jump;
    for (index, entry) in entries.iter().enumerate() {
        if is_jump(&entry.call) {
            if before == 0 {
                return Some(index as u32 + 2);
            }
            before -= 1;
        }
    }
    None
}

// The line of a fault of the call at line `number`: a seal's is that of the jump that fails.
fn line_of(entries: &[Entry<'_>], number: u32, fault: &LineFault) -> u32
    requires { length entries.now ≤ 683 }
    ensures { result ≡ seal_line (call_lines 2 (map call_of entries.now)) number fault.now }
{
    match fault {
        LineFault::Seal(SealFault::Jump(bad)) => { jump_line(entries, bad.jump).unwrap_or(number) }
        _ => number,
    }
}

// What the answer to the call at line `number` says.
fn taken_at(entries: &[Entry<'_>], number: u32, answer: &Answer) -> Result<(), SheetFault>
    requires { length entries.now ≤ 683 }
    ensures { result ≡ at_jump (call_lines 2 (map call_of entries.now)) number (accepted answer.now) tt }
{
    match accepted(answer) {
        Ok(()) => Ok(()),
        Err(fault) => {
            let line = line_of(entries, number, &fault);
            Err(SheetFault { line, fault })
        }
    }
}

// The first refused call, with its line.
pub(crate) fn taken(entries: &[Entry<'_>]) -> Result<(), SheetFault>
    requires { length entries.now ≤ 683 }
    ensures { result ≡ first_fault (call_lines 2 (map call_of entries.now)) 2 (map answer_of entries.now) }
{
    for (index, entry) in entries.iter().enumerate() {
        taken_at(entries, index as u32 + 2, &entry.answer)?;
    }
    Ok(())
}
