// An instruction out of a store.
ghost use Rattle.std.specs.Prelude.{◌≡◌, ◌<◌, IfSome, take};
ghost use Rattle.std.specs.List.{slice_get};
ghost use Rattle.reading.specs.Places.{word_at, ReadsAt};

use crate::faults::ReadFault;
use crate::word::read_word;
use bits::halves::{has_second, join_halves};
use instructions::instruction::Instruction;
use store::store::Store;

// The halfword at a place of the first `used`.
fn half_within<S: Store>(store: &S, used: usize, place: usize) -> Option<u16>
    ensures half { result ≡ slice_get (take used (S.halfwords store.now)) place }
    ensures inside { IfSome result (λ h. place < used) }
{
    (place < used).then(|| store.get(place))?
}

// The word that begins at a place of the first `used` halfwords, whole: a second halfword belongs to it when the low two bits of the first are both 1.
pub fn word_within<S: Store>(store: &S, used: usize, place: usize) -> Option<u32>
    ensures { result ≡ word_at (take used (S.halfwords store.now)) place }
{
    let low = half_within(store, used, place)?;
    if !has_second(low) {
        return Some(u32::from(low));
    }
    let high = half_within(store, used, place + 1)?;
    Some(join_halves(low, high))
}

// The word that begins at a place of a store.
fn word_at<S: Store>(store: &S, place: usize) -> Option<u32>
    ensures { result ≡ word_at (S.halfwords store.now) place }
{
    word_within(store, store.size(), place)
}

// The instruction that begins at a place of a store.
pub fn read<S: Store>(store: &S, place: usize) -> Result<Instruction, ReadFault>
    ensures { ReadsAt (word_at (S.halfwords store.now) place) place result }
{
    let w = word_at(store, place).ok_or(ReadFault::Outside(place))?;
    read_word(w).ok_or(ReadFault::NoInstruction(w))
}
