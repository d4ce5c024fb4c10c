// Change: new numbers for slots, all or none.
ghost use Rattle.std.specs.Prelude.{◌≡◌, ◌+◌, ◌≤◌, [], map, length, Ok, IfSome};
ghost use Rattle.store.specs.Answers.{when};
ghost use Rattle.store.specs.Puts.{applied};
ghost use Rattle.records.specs.Records.{slot_of, slots_in};
ghost use Rattle.changing.specs.Changing.{numbered, inside, named, entry_judged, changed_from, changed_answer, written, pair_puts, edit_puts, changed};

use crate::edits::Edit;
use crate::faults::{BadEntry, ChangeFault, EntryCause};
use crate::slots::{Slots, is_named};
use items::pair_items::{generate_imm, pair_halves, register_of};
use records::book::Book;
use records::counts::Counts;
use store::store::{Store, write};

impl Slots<'_> {
    // What is wrong with an entry, where those edits stand before it.
    fn judge(&self, before: &[Edit], edit: &Edit) -> Result<(), EntryCause>
        ensures { result ≡ entry_judged (inside self.now.used (numbered (map slot_of self.now.slots.now) edit.now.slot)) (named before.now edit.now.slot) edit.now }
    {
        if !self.is_inside(self.slot_of(edit.slot)) {
            return Err(EntryCause::NoSlot(edit.slot));
        }
        if is_named(before, edit.slot) {
            return Err(EntryCause::Again(edit.slot));
        }
        generate_imm(edit.value).ok_or(EntryCause::Range(edit.value))?;
        Ok(())
    }

    // The first entry that fails.
    fn test_edits(&self, edits: &[Edit]) -> Result<(), ChangeFault>
        ensures { result ≡ changed_from 0 (map slot_of self.now.slots.now) self.now.used [] edits.now }
    {
        for (k, edit) in edits.iter().enumerate() {
            let judged = self.judge(&edits[..k], edit);
            judged.map_err(move |cause| ChangeFault::Entry(BadEntry { entry: k, cause }))?;
        }
        Ok(())
    }

    // Where the pair of one entry's slot stands, and its new halfwords.
    fn pair_for(&self, edit: &Edit) -> Option<(usize, [u16; 4])>
        ensures puts { written result ≡ pair_puts self.now.used edit.now.value (numbered (map slot_of self.now.slots.now) edit.now.slot) }
        ensures inside { IfSome result (λ p. p.0 + 4 ≤ self.now.used) }
    {
        let slot = self.slot_of(edit.slot)?;
        if !slot.fits(self.used) {
            return None;
        }
        let register = register_of(slot.register)?;
        let (high, low) = generate_imm(edit.value)?;
        Some((slot.place as usize, pair_halves(register, high, low)))
    }

    // Writes the pair of one entry's slot.
    fn write_edit<S: Store>(&self, store: &mut S, edit: &Edit)
        requires { self.now.used ≤ length (S.halfwords store.old) }
        ensures { S.halfwords store.new ≡ applied (pair_puts self.now.used edit.now.value (numbered (map slot_of self.now.slots.now) edit.now.slot)) (S.halfwords store.old) }
    {
        if let Some(pair) = self.pair_for(edit) {
            let _ = write(store, pair.0, &pair.1);
        }
    }

    // Writes the pair of each entry's slot, in order.
    #[tactic(auto, using(crate::proofs::Entries::changed_step, crate::proofs::Entries::changed_room))]
    fn write_edits<S: Store>(&self, store: &mut S, edits: &[Edit])
        requires { self.now.used ≤ length (S.halfwords store.old) }
        ensures { S.halfwords store.new ≡ changed (map slot_of self.now.slots.now) self.now.used edits.now (S.halfwords store.old) }
    {
        for edit in edits {
            self.write_edit(store, edit);
        }
    }
}

// Tests every entry, then writes the pair of each slot named.
// Stays: counts, store and book are passed to each call of a program by design, since it holds plain numbers alone.
pub fn change<S: Store>(
    counts: Counts,
    store: &mut S,
    book: &Book,
    edits: &[Edit],
) -> Result<(), ChangeFault>
    ensures answer { result ≡ changed_answer (length (S.halfwords store.old)) counts.used (slots_in counts book.now) edits.now }
    ensures after { S.halfwords store.new ≡ applied (when result (edit_puts (slots_in counts book.now) counts.used edits.now) []) (S.halfwords store.old) }
{
    if store.size() < counts.used as usize {
        return Err(ChangeFault::Full);
    }
    let slots = Slots {
        slots: book.slots(counts),
        used: counts.used,
    };
    slots.test_edits(edits)?;
    slots.write_edits(store, edits);
    Ok(())
}
