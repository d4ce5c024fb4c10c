// The first line of a script: how many halfwords its store has.
ghost use Rattle.std.specs.Prelude.{◌≡◌, ◌≤◌, IfSome};
ghost use Rattle.scripts.specs.Size.{size_of};

use crate::words::{count, get, number_at};

// The size in halfwords that a line gives, 0 to 32768; none where it is no such line.
pub fn size_of(line: &[u8]) -> Option<usize>
    ensures size { result ≡ size_of line.now }
    ensures most { IfSome result (λ n. n ≤ 32768) }
{
    if count(line) != 2 {
        return None;
    }
    if get(line, 0)? != b"store".as_slice() {
        return None;
    }
    let size = usize::try_from(number_at(line, 1)?).ok()?;
    (size <= 32768).then_some(size)
}
