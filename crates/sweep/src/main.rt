//! Reads every word below 65536, of which three quarters are whole halfwords, and a million words of a fixed generator: each is no instruction's, or reads as an instruction that has it. Prints the counts.
#![tactic(auto)]

use crate::drawing::of_drawn;
use crate::tally::{Tally, of_low};
use std::io;

mod drawing;
mod outcome;
mod tally;

fn main(rt: HostRuntime) -> io::Result<()> {
    let Tally {
        read,
        unread,
        other,
    } = of_low();
    println!(rt; "words below 65536: read {read}, not read {unread}, read as another {other}")?;
    let Tally {
        read,
        unread,
        other,
    } = of_drawn();
    println!(rt; "words drawn: read {read}, not read {unread}, read as another {other}")
}
