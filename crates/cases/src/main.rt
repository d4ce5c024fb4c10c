//! Runs the worked cases and the vectors of standard input through the library's calls: prints each that does not hold, and the counts.
//! A vector is a line: an operation's name, its five fields, and its word in hexadecimal.
#![tactic(auto)]

use crate::line::agrees;
use crate::marked::{examples, marked, others};
use crate::tally::{Tally, of_cases, of_lines};
use std::io;
use std::io::{Read, Write};
use text::lines::Lines;

mod case;
mod line;
mod made;
mod marked;
mod tally;

// Writes the lines that do not hold.
fn write_different<W: Write>(out: &mut W, text: &[u8]) -> io::Result<()> {
    for line in Lines::of(text).filter_map(Result::ok) {
        if !agrees(line) {
            out.write_all(line)?;
            out.write_all(b"\n")?;
        }
    }
    Ok(())
}

fn main(rt: HostRuntime) -> io::Result<()> {
    let mut bytes = Vec::new(rt.alloc());
    rt.stdin().read_to_end(&mut bytes)?;
    let text = bytes.as_slice();
    write_different(&mut rt.stdout(), text)?;
    let Tally { all, held } = of_cases(marked());
    println!(rt; "marked cases {all}, held {held}")?;
    let Tally { all, held } = of_cases(others());
    println!(rt; "other cases {all}, held {held}")?;
    let Tally { all, held } = of_cases(examples());
    println!(rt; "examples of the manuals {all}, held {held}")?;
    let Tally { all, held } = of_lines(text);
    println!(rt; "vectors {all}, held {held}")
}
