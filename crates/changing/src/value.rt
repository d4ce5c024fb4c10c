// Value: the number that a slot holds, by the bits at its place.
ghost use Rattle.std.specs.Prelude.{◌≡◌, length};
ghost use Rattle.items.specs.Pairs.{held_at};
ghost use Rattle.records.specs.Records.{slots_in};
ghost use Rattle.changing.specs.Changing.{valued};

use crate::faults::ValueFault;
use crate::slots::Slots;
use items::pair_items::held_by;
use records::book::Book;
use records::counts::Counts;
use store::store::{Store, half_at};

// The number in the four halfwords from a place up.
fn read_pair<S: Store>(store: &S, place: u32) -> i64
    ensures { result ≡ held_at (S.halfwords store.now) place }
{
    let at = place as usize;
    held_by([
        half_at(store, at),
        half_at(store, at + 1),
        half_at(store, at + 2),
        half_at(store, at + 3),
    ])
}

// The number that a slot of a sealed program holds.
// Stays: counts, store and book are passed to each call of a program by design, since it holds plain numbers alone.
pub fn value<S: Store>(counts: Counts, store: &S, book: &Book, slot: i64) -> Result<i64, ValueFault>
    ensures { result ≡ valued (S.halfwords store.now) counts.used (slots_in counts book.now) slot }
{
    if store.size() < counts.used as usize {
        return Err(ValueFault::Full);
    }
    let slots = Slots {
        slots: book.slots(counts),
        used: counts.used,
    };
    match slots.slot_of(slot) {
        Some(found) if found.fits(slots.used) => Ok(read_pair(store, found.place)),
        _ => Err(ValueFault::NoSlot(slot)),
    }
}
