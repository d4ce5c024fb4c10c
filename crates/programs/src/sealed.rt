// A sealed program: it takes changes of its slots' values, and tells them.
ghost use Rattle.std.specs.Prelude.{◌≡◌, [], length};
ghost use Rattle.store.specs.Answers.{when};
ghost use Rattle.store.specs.Puts.{applied};
ghost use Rattle.records.specs.Records.{slots_in};
ghost use Rattle.changing.specs.Changing.{changed_answer, edit_puts, valued};
ghost use Rattle.lives.specs.Deeds.{answered_sealed, cells_sealed};

use crate::answers::{tell, tell_value};
use changing::change::change;
use changing::edits::Edit;
use changing::faults::{ChangeFault, ValueFault};
use changing::value::value;
use lives::types::{Answer, Call, Fault};
use records::book::Book;
use records::counts::Counts;
use store::store::Store;

// It holds only counts.
#[derive(Drop)]
pub struct Sealed {
    counts: Counts,
}

impl Sealed {
    // A program with those counts, once its jumps lead to their labels.
    pub(crate) fn of(counts: Counts) -> Sealed
        ensures { result.counts ≡ counts }
    {
        Sealed { counts }
    }

    // How many halfwords of the store are the program's.
    pub fn used(&self) -> usize
        ensures { result ≡ self.now.counts.used }
    {
        self.counts.used as usize
    }

    // New numbers for slots, all or none.
    pub fn change<S: Store>(
        &self,
        store: &mut S,
        book: &Book,
        edits: &[Edit],
    ) -> Result<(), ChangeFault>
        ensures answer { result ≡ changed_answer (length (S.halfwords store.old)) self.now.counts.used (slots_in self.now.counts book.now) edits.now }
        ensures after { S.halfwords store.new ≡ applied (when result (edit_puts (slots_in self.now.counts book.now) self.now.counts.used edits.now) []) (S.halfwords store.old) }
    {
        change(self.counts, store, book, edits)
    }

    // The number that a slot holds.
    pub fn value<S: Store>(&self, store: &S, book: &Book, slot: i64) -> Result<i64, ValueFault>
        ensures { result ≡ valued (S.halfwords store.now) self.now.counts.used (slots_in self.now.counts book.now) slot }
    {
        value(self.counts, store, book, slot)
    }

    // One call of those that a sealed program takes; any other is out of its state.
    pub(crate) fn answer<S: Store>(&self, store: &mut S, book: &Book, call: &Call) -> Answer
        ensures answer { result ≡ answered_sealed (S.halfwords store.old) self.now.counts book.now call.now }
        ensures after { S.halfwords store.new ≡ cells_sealed (S.halfwords store.old) self.now.counts book.now call.now }
    {
        match call {
            Call::Change(edits) => tell(self.change(store, book, edits).map_err(Fault::Change)),
            Call::Value(slot) => tell_value(self.value(store, book, *slot)),
            Call::Do(_) | Call::Try | Call::Keep | Call::GiveUp | Call::Seal => Answer::OutOfState,
        }
    }
}
