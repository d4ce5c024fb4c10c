// Words at places of a store: whether two share a halfword, and how one is written.
ghost use Rattle.std.specs.Prelude.{◌≡◌, ◌+◌, ◌≤◌, map, length};
ghost use Rattle.store.specs.Puts.{applied, puts};
ghost use Rattle.instructions.specs.Words.{listed};
ghost use Rattle.records.specs.Records.{jump_of};
ghost use Rattle.sealing.specs.Sealing.{size_at, two_apart, apart};

use bits::halves::has_second;
use instructions::word::Halfwords;
use records::book::JumpRecord;
use store::store::{Store, half_at, write};

// How many halfwords the word at a place has.
fn size_at<S: Store>(store: &S, place: usize) -> usize
    ensures { result ≡ size_at (S.halfwords store.now) place }
{
    if has_second(half_at(store, place)) {
        2
    } else {
        1
    }
}

// Whether the words at two places share no halfword.
fn are_apart<S: Store>(store: &S, a: u32, b: u32) -> bool
    ensures { result ≡ two_apart (S.halfwords store.now) a b }
{
    let (first, second) = (a as usize, b as usize);
    first + size_at(store, first) <= second || second + size_at(store, second) <= first
}

// Whether the word at a place shares no halfword with those of jumps.
pub fn is_apart<S: Store>(store: &S, jumps: &[JumpRecord], place: u32) -> bool
    ensures { result ≡ apart (S.halfwords store.now) (map jump_of jumps.now) place }
{
    for other in jumps {
        if !are_apart(store, other.place, place) {
            return false;
        }
    }
    true
}

// Writes a word's halfwords from a place up.
pub fn write_halves<S: Store>(store: &mut S, place: u32, halves: Halfwords)
    requires { place + length (listed halves) ≤ length (S.halfwords store.old) }
    ensures { S.halfwords store.new ≡ applied (puts place (listed halves)) (S.halfwords store.old) }
{
    let at = place as usize;
    let _ = match halves {
        Halfwords::One(a) => write(store, at, &[a]),
        Halfwords::Two(a, b) => write(store, at, &[a, b]),
    };
}
