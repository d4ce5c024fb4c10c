// A try: calls that count for nothing unless it is kept.
ghost use Rattle.std.specs.Prelude.{◌≡◌, false, if◌then◌else◌, [], length};
ghost use Rattle.store.specs.Answers.{when};
ghost use Rattle.store.specs.Puts.{applied, puts};
ghost use Rattle.records.specs.Records.{more_used, more_labels, more_jumps, more_slots, label_in, jump_in, slot_in, labels_in};
ghost use Rattle.items.specs.Items.{item_of, words};
ghost use Rattle.items.specs.Pairs.{pair};
ghost use Rattle.calls.specs.Calls.{emitted, constanted, jumped, bound, jump_item, label_number};
ghost use Rattle.lives.specs.Deeds.{answered, counts_by, book_by, puts_by};

use calls::bind::bind;
use calls::constant::constant;
use calls::emit::emit;
use calls::faults::{BindFault, ConstantFault, PlaceFault};
use calls::jump::{JumpTo, jump};
use instructions::instruction::Instruction;
use lives::types::{Deed, Fault};
use program::faults::EmitFault;
use records::book::Book;
use records::counts::Counts;
use store::store::Store;

// A guard: it lends the counts of an open program, and puts the saved ones back on every way out unless it is kept.
pub struct Try<'a> {
    counts: &'a mut Counts,
    saved: Counts,
    kept: bool,
}

impl Drop for Try<'_> {
    fn drop(self)
        ensures { self.exit.0.now ≡ (if self.entry.kept then self.entry.counts.now else self.entry.saved) }
    {
        if !self.kept {
            *self.counts = self.saved;
        }
        let Try {
            counts: _,
            saved: _,
            kept: _,
        } = self;
    }
}

impl<'a> Try<'a> {
    // Saves the counts as they stand.
    pub(crate) fn new(counts: &'a mut Counts) -> Try<'a>
        ensures same_reference { result.counts.ghost_name ≡ counts.entry.ghost_name }
        ensures counts { result.counts.now ≡ counts.old }
        ensures saved { result.saved ≡ counts.old }
        ensures kept { result.kept ≡ false }
    {
        let saved = *counts;
        Try {
            counts,
            saved,
            kept: false,
        }
    }

    // Writes an instruction, but no jump, behind the halfwords used so far.
    pub fn emit<S: Store>(&mut self, store: &mut S, i: &Instruction) -> Result<(), EmitFault>
        ensures answer { result ≡ emitted (length (S.halfwords store.old)) self.old.counts.now.used (item_of i.now) }
        ensures counts { self.new.counts.now ≡ when result (more_used self.old.counts.now (length (words (item_of i.now)))) self.old.counts.now }
        ensures after { S.halfwords store.new ≡ applied (when result (puts self.old.counts.now.used (words (item_of i.now))) []) (S.halfwords store.old) }
        ensures same_reference { self.new.counts.ghost_name ≡ self.old.counts.ghost_name }
        ensures saved { self.new.saved ≡ self.old.saved }
        ensures kept { self.new.kept ≡ self.old.kept }
    {
        emit(self.counts, store, i)
    }

    // Writes the pair that loads a register with a number, and notes its slot.
    pub fn constant<S: Store>(
        &mut self,
        store: &mut S,
        book: &mut Book,
        d: i64,
        value: i64,
    ) -> Result<(), ConstantFault>
        ensures answer { result ≡ constanted (length (S.halfwords store.old)) self.old.counts.now.used self.old.counts.now.slots d value }
        ensures counts { self.new.counts.now ≡ when result (more_slots self.old.counts.now) self.old.counts.now }
        ensures book { book.new ≡ when result (slot_in book.old self.old.counts.now.slots self.old.counts.now.used d) book.old }
        ensures after { S.halfwords store.new ≡ applied (when result (puts self.old.counts.now.used (pair d value)) []) (S.halfwords store.old) }
        ensures same_reference { self.new.counts.ghost_name ≡ self.old.counts.ghost_name }
        ensures saved { self.new.saved ≡ self.old.saved }
        ensures kept { self.new.kept ≡ self.old.kept }
    {
        constant(self.counts, store, book, d, value)
    }

    // Writes a jump at distance 0, and notes its place and label.
    pub fn jump<S: Store>(
        &mut self,
        store: &mut S,
        book: &mut Book,
        to: &JumpTo,
    ) -> Result<(), PlaceFault>
        ensures answer { result ≡ jumped (length (S.halfwords store.old)) self.old.counts.now.used self.old.counts.now.jumps to.now }
        ensures counts { self.new.counts.now ≡ when result (more_jumps self.old.counts.now (length (words (jump_item to.now)))) self.old.counts.now }
        ensures book { book.new ≡ when result (jump_in book.old self.old.counts.now.jumps self.old.counts.now.used (label_number to.now.label)) book.old }
        ensures after { S.halfwords store.new ≡ applied (when result (puts self.old.counts.now.used (words (jump_item to.now))) []) (S.halfwords store.old) }
        ensures same_reference { self.new.counts.ghost_name ≡ self.old.counts.ghost_name }
        ensures saved { self.new.saved ≡ self.old.saved }
        ensures kept { self.new.kept ≡ self.old.kept }
    {
        jump(self.counts, store, book, to)
    }

    // Binds a label at the program's end.
    pub fn bind(&mut self, book: &mut Book, label: i64) -> Result<(), BindFault>
        ensures answer { result ≡ bound self.old.counts.now.labels (labels_in self.old.counts.now book.old) label }
        ensures counts { self.new.counts.now ≡ when result (more_labels self.old.counts.now) self.old.counts.now }
        ensures book { book.new ≡ when result (label_in book.old self.old.counts.now.labels (label_number label) self.old.counts.now.used) book.old }
        ensures same_reference { self.new.counts.ghost_name ≡ self.old.counts.ghost_name }
        ensures saved { self.new.saved ≡ self.old.saved }
        ensures kept { self.new.kept ≡ self.old.kept }
    {
        bind(self.counts, book, label)
    }

    // One call of those that an open program and a try take.
    pub(crate) fn carry<S: Store>(
        &mut self,
        store: &mut S,
        book: &mut Book,
        deed: &Deed,
    ) -> Result<(), Fault>
        ensures answer { result ≡ answered (length (S.halfwords store.old)) self.old.counts.now book.old deed.now }
        ensures counts { self.new.counts.now ≡ when result (counts_by deed.now self.old.counts.now) self.old.counts.now }
        ensures book { book.new ≡ when result (book_by deed.now self.old.counts.now book.old) book.old }
        ensures after { S.halfwords store.new ≡ applied (when result (puts_by deed.now self.old.counts.now) []) (S.halfwords store.old) }
        ensures same_reference { self.new.counts.ghost_name ≡ self.old.counts.ghost_name }
        ensures saved { self.new.saved ≡ self.old.saved }
        ensures kept { self.new.kept ≡ self.old.kept }
    {
        match deed {
            Deed::Emit(i) => self.emit(store, i).map_err(Fault::Emit),
            Deed::Constant(l) => self
                .constant(store, book, l.d, l.value)
                .map_err(Fault::Constant),
            Deed::Jump(to) => self.jump(store, book, to).map_err(Fault::Jump),
            Deed::Bind(label) => self.bind(book, *label).map_err(Fault::Bind),
        }
    }

    // Keeps what was done inside the try.
    pub fn keep(self)
        ensures { self.exit.0.now ≡ self.entry.counts.now }
    {
        let Try {
            counts,
            saved,
            kept: _,
        } = self;
        let _kept = Try {
            counts,
            saved,
            kept: true,
        };
    }
}
