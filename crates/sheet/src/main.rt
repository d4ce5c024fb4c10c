//! Reads a sheet from standard input and prints its answer.
#![tactic(auto)]

use sheets::sheet::sheet;
use std::io;
use std::io::{Read, Write};
use text::writing::Text;

fn main(rt: HostRuntime) -> io::Result<()> {
    // one byte more than a sheet may have, so that a longer one is seen
    let mut input: Text<4097> = Text::new();
    io::copy(&mut rt.stdin().take(4097), &mut input)?;
    // Stays a buffer with a length beside: a sheet writes into memory that its caller lends.
    let mut text = [0u8; 4096];
    let output: &mut [u8] = &mut text;
    match sheet(input.as_bytes(), output) {
        Ok(n) => rt.stdout().write_all(&output[..n]),
        Err(_) => Ok(()),
    }
}
