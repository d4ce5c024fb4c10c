// Where a run of bytes has a mark, and the parts between marks.
ghost use Rattle.std.specs.Prelude.{◌≡◌, ◌==◌, length, position};
ghost use Rattle.std.specs.List.{slice_split};
ghost use Rattle.std.specs.Str.{bytes_eq};

// The place of the first `mark`, if there is one.
// Stays a loop over places: std's `position`, written out in a search of fields, keeps three counts and takes up to half as long again.
pub(crate) fn place(bytes: &[u8], mark: u8) -> Option<usize>
    ensures { result ≡ position (λ b. b == mark) bytes.now }
{
    for k in 0..bytes.len() {
        if bytes[k] == mark {
            return Some(k);
        }
    }
    None
}

// How many parts there are between the marks: one more than there are marks.
// Stays a loop over bytes: with `filter` and `count` in its place, lines with their count take half as long again.
pub(crate) fn parts(bytes: &[u8], mark: u8) -> usize
    ensures { result ≡ length (slice_split (λ b. b == mark) bytes.now) }
{
    let mut n = 1;
    for b in bytes {
        if *b == mark {
            n += 1;
        }
    }
    n
}

// The number of the first part between the marks that has just the bytes `text`.
pub(crate) fn part_place(bytes: &[u8], mark: u8, text: &[u8]) -> Option<usize>
    ensures { result ≡ position (λ p. bytes_eq p text.now) (slice_split (λ b. b == mark) bytes.now) }
{
    bytes.split(|b| *b == mark).position(|part| part == text)
}
