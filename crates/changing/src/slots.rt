// Slots by number.
ghost use Rattle.std.specs.Prelude.{◌≡◌, map};
ghost use Rattle.records.specs.Records as records;
ghost use Rattle.changing.specs.Changing.{numbered, inside, named, spot_of};

use crate::edits::Edit;
use items::pair_items::register_of;
use records::book::SlotRecord;

// The slots that count, and how many halfwords are used.
#[derive(Clone, Copy)]
pub struct Slots<'a> {
    pub slots: &'a [SlotRecord],
    pub used: u32,
}

impl Slots<'_> {
    // The slot of that number.
    pub fn slot_of(&self, slot: i64) -> Option<SlotRecord>
        ensures { spot_of result ≡ numbered (map records.slot_of self.now.slots.now) slot }
    {
        let number = usize::try_from(slot).ok()?;
        self.slots.get(number).copied()
    }

    // Whether a slot's four halfwords lie inside the used ones.
    pub fn is_inside(&self, found: Option<SlotRecord>) -> bool
        ensures { result ≡ inside self.now.used (spot_of found) }
    {
        let used = self.used;
        found.is_some_and(|slot| slot.fits(used) && register_of(slot.register).is_some())
    }
}

// Whether one of the entries names the slot.
pub fn is_named(entries: &[Edit], slot: i64) -> bool
    ensures { result ≡ named entries.now slot }
{
    entries.iter().any(|entry| entry.slot == slot)
}
