// The lines of a sheet.
ghost use Rattle.std.specs.Prelude.{◌≡◌, ◌==◌, position};
ghost use Rattle.std.specs.Iterator.{YieldsFirstBy, item_count};
ghost use Rattle.text.specs.Lines.{lines, LinesExact};
ghost use Rattle.text.specs.Given.{given};

use crate::bytes::place;

// What stands behind the last newline of a sheet.
#[derive(Clone, Copy, PartialEq, Eq, Debug, Drop)]
pub struct Unended<'a>(pub &'a [u8]);

// The lines of a sheet, one after the other, each without its newline; an unended one comes last.
// Stays an iterator of its own: std's `split_inclusive` leaves the newline on a line, and a function cannot answer `impl Iterator`.
#[derive(Clone, Copy, Drop)]
pub struct Lines<'a> {
    // what is left of the sheet
    rest: &'a [u8],
}

impl<'a> Lines<'a> {
    // The lines of this sheet.
    pub fn of(sheet: &'a [u8]) -> Lines<'a>
        ensures { result.rest.now ≡ sheet.now }
    {
        Lines { rest: sheet }
    }
}

// Where the sheet's first newline stands, if there is one.
// Stays a call: written out in each loop over lines, the search takes half as long again.
#[inline(never)]
fn newline(sheet: &[u8]) -> Option<usize>
    ensures { result ≡ position (λ b. b == 10) sheet.now }
{
    place(sheet, b'\n')
}

impl<'a> Iterator for Lines<'a> {
    type Item = Result<&'a [u8], Unended<'a>>;

    ghost next_gives = { YieldsFirstBy given (λ s. lines s.rest.now) };

    ghost remaining = { item_count (λ s. lines s.rest.now) };

    #[tactic(auto, using(crate::proofs::Sheet::lines_next, crate::proofs::Sheet::lines_fall, crate::proofs::Sheet::lines_last))]
    fn next(&mut self) -> Option<Result<&'a [u8], Unended<'a>>> {
        let sheet = self.rest;
        if sheet.is_empty() {
            return None;
        }
        let Some(end) = newline(sheet) else {
            self.rest = &[];
            return Some(Err(Unended(sheet)));
        };
        self.rest = &sheet[end + 1..];
        Some(Ok(&sheet[..end]))
    }
}

// The lines of a sheet are the only ones that write it.
pub fn lines_stand()
    ensures { LinesExact }
{}
