//! Reads a script from standard input, runs its calls on a program, and prints their answers.
#![tactic(auto)]

use scripts::faults::ScriptFault;
use scripts::whole::answer;
use std::io;
use std::io::{Read, Write};
use text::writing::Text;

fn main(rt: HostRuntime) -> io::Result<()> {
    // one byte more than a script may have, so that a longer one is seen
    let mut input: Text<262145> = Text::new();
    io::copy(&mut rt.stdin().take(262145), &mut input)?;
    let mut out = rt.stdout();
    match answer(input.as_bytes(), &mut out) {
        Ok(()) => Ok(()),
        Err(ScriptFault::TooLong) => writeln!(out, "too long"),
        Err(ScriptFault::Io(e)) => Err(e),
    }
}
