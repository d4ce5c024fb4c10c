// The names line.
ghost use Rattle.std.specs.Prelude.{◌≡◌};
ghost use Rattle.lines.specs.Names.{named_columns};

use text::fields::{count, position};

// Which field of a line is which: the number of each, from 0.
#[derive(Clone, Copy, PartialEq, Eq, Debug)]
pub struct Columns {
    pub op: usize,
    pub d: usize,
    pub a: usize,
    pub b: usize,
    pub n: usize,
    pub m: usize,
}

impl Columns {
    // The columns of a names line: none unless it has the six names, in any order.
    pub fn of(line: &[u8]) -> Option<Columns>
        ensures { result ≡ named_columns line.now }
    {
        if count(line) != 6 {
            return None;
        }
        Some(Columns {
            op: position(line, b"op")?,
            d: position(line, b"d")?,
            a: position(line, b"a")?,
            b: position(line, b"b")?,
            n: position(line, b"n")?,
            m: position(line, b"m")?,
        })
    }
}
