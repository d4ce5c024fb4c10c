//! Replays lines of answers that the Rust gave: an encoder's name, its operands, and the word in hexadecimal; an immediate's constructor or
//! generate_imm with its argument and what it makes; a vector operation with its codes and the overlaps that it forbids; `panic` where an
//! assertion of the Rust fails. Prints each line at which the answer here is another, and the counts.
#![tactic(auto)]

use crate::line::agrees;
use crate::tally::counted;
use std::io;
use std::io::{Read, Write};
use text::lines::Lines;

mod answer;
mod constants;
mod encoder;
mod line;
mod name;
mod operand;
mod rules;
mod short_words;
mod tally;
mod vector_name;
mod wide_words;

// Writes the lines that do not tell what the answer here is.
fn write_different<W: Write>(out: &mut W, text: &[u8]) -> io::Result<()> {
    for line in Lines::of(text).filter_map(Result::ok) {
        if !agrees(line) {
            out.write_all(line)?;
            out.write_all(b"\n")?;
        }
    }
    Ok(())
}

fn main(rt: HostRuntime) -> io::Result<()> {
    let mut bytes = Vec::new(rt.alloc());
    rt.stdin().read_to_end(&mut bytes)?;
    let text = bytes.as_slice();
    write_different(&mut rt.stdout(), text)?;
    let tally = counted(text);
    let lines = tally.lines;
    let equal = tally.equal;
    let different = lines - equal;
    println!(rt; "lines {lines}, equal {equal}, different {different}")
}
