// Constant: a register loaded with a number, in a slot.
ghost use Rattle.std.specs.Prelude.{◌≡◌, [], length};
ghost use Rattle.store.specs.Answers.{when};
ghost use Rattle.store.specs.Puts.{applied, puts};
ghost use Rattle.records.specs.Records.{slot_in, more_slots};
ghost use Rattle.items.specs.Pairs.{pair};
ghost use Rattle.calls.specs.Calls.{constanted};

use crate::faults::ConstantFault;
use items::pair_items::{generate_imm, pair_halves, register_of};
use program::append::append;
use records::book::{Book, SlotRecord};
use records::counts::Counts;
use store::store::Store;

// Writes the pair that loads the register with the number, behind the halfwords used so far, and notes its slot.
pub fn constant<S: Store>(
    counts: &mut Counts,
    store: &mut S,
    book: &mut Book,
    d: i64,
    value: i64,
) -> Result<(), ConstantFault>
    ensures answer { result ≡ constanted (length (S.halfwords store.old)) counts.old.used counts.old.slots d value }
    ensures counts { counts.new ≡ when result (more_slots counts.old) counts.old }
    ensures book { book.new ≡ when result (slot_in book.old counts.old.slots counts.old.used d) book.old }
    ensures after { S.halfwords store.new ≡ applied (when result (puts counts.old.used (pair d value)) []) (S.halfwords store.old) }
{
    let register = register_of(d).ok_or(ConstantFault::Register(d))?;
    let (high, low) = generate_imm(value).ok_or(ConstantFault::Range(value))?;
    if counts.slots >= book.slots.len() {
        return Err(ConstantFault::Slots);
    }
    let place = counts.used;
    append(counts, store, &pair_halves(register, high, low))?;
    book.slots[counts.slots] = SlotRecord { place, register: d };
    counts.slots += 1;
    Ok(())
}
