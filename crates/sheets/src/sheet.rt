// The sheet call.
ghost use Rattle.std.specs.Prelude.{◌≡◌, ◌≤◌, length, IfOk};
ghost use Rattle.store.specs.Answers.{when};
ghost use Rattle.text.specs.Written.{overwritten};
ghost use Rattle.sheets.specs.Sheet.{answer, sized};

use crate::assemble::assemble;
use crate::faults::SizeFault;
use printing::faults::print_fault;
use printing::words::print_words;
use store::built_in::BuiltIn;
use text::writing::Text;

// The text that answers a sheet.
fn answer(input: &[u8]) -> Text<4096>
    requires { length input.now ≤ 4096 }
    ensures { result ≡ answer input.now }
{
    let mut store = BuiltIn::new();
    match assemble(input, &mut store) {
        Ok(used) => print_words(&store, used),
        Err(fault) => print_fault(fault.line, fault.number()),
    }
}

// Answers a sheet: writes the text into the output, whose bytes past the text stay, and tells how long the text is.
// Refuses an input of more than 4096 bytes and an output of fewer, and then writes nothing.
pub fn sheet(input: &[u8], output: &mut [u8]) -> Result<usize, SizeFault>
    ensures told { result ≡ sized (length input.now) (length output.old) (length (answer input.now)) }
    ensures short { IfOk result (λ n. n ≤ 4096) }
    ensures after { output.new ≡ when result (overwritten output.old 0 (answer input.now)) output.old }
{
    if input.len() > 4096 {
        return Err(SizeFault::Input(input.len()));
    }
    if output.len() < 4096 {
        return Err(SizeFault::Output(output.len()));
    }
    Ok(answer(input).copy_to(output))
}
