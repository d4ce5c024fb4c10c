// The words of a line, parted by one space.
ghost use Rattle.std.specs.Prelude.{◌≡◌, ◌==◌, length};
ghost use Rattle.std.specs.List.{slice_get};
ghost use Rattle.std.specs.Borrow.{Bor};
ghost use Rattle.std.specs.Option.{option_map};
ghost use Rattle.scripts.specs.Words.{words, number_at};

use text::numbers::number;

pub(crate) fn is_space(b: &u8) -> bool
    ensures { result ≡ (b.now == 32) }
{
    *b == b' '
}

// How many words the line has.
pub(crate) fn count(line: &[u8]) -> usize
    ensures { result ≡ length (words line.now) }
{
    line.split(is_space).count()
}

// Word `k` of the line, counted from 0.
pub(crate) fn get(line: &[u8], k: usize) -> Option<&[u8]>
    ensures { option_map (λ w. w.now) result ≡ slice_get (words line.now) k }
{
    line.split(is_space).nth(k)
}

// The number that word `k` writes.
pub(crate) fn number_at(line: &[u8], k: usize) -> Option<i64>
    ensures { result ≡ number_at line.now k }
{
    number(get(line, k)?)
}
