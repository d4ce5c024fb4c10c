// An open program: it takes emit, constant, jump, bind, a try and a seal.
ghost use Rattle.std.specs.Prelude.{◌≡◌, false, [], length, IfOk};
ghost use Rattle.std.specs.Borrow.{sem};
ghost use Rattle.store.specs.Answers.{when};
ghost use Rattle.store.specs.Puts.{applied, puts};
ghost use Rattle.records.specs.Records.{none, more_used, more_labels, more_jumps, more_slots, label_in, jump_in, slot_in, labels_in, jumps_in};
ghost use Rattle.items.specs.Items.{item_of, words};
ghost use Rattle.items.specs.Pairs.{pair};
ghost use Rattle.calls.specs.Calls.{emitted, constanted, jumped, bound, jump_item, label_number};
ghost use Rattle.sealing.specs.Sealing.{tested, laid, settled_book, EachAims};
ghost use Rattle.lives.specs.Deeds.{answered, counts_by, book_by, puts_by};
ghost use Rattle.programs.specs.Lending.{LendsCounts};
ghost use Rattle.programs.specs.Handing.{handed};

use crate::sealed::Sealed;
use crate::trying::Try;
use calls::bind::bind;
use calls::constant::constant;
use calls::emit::emit;
use calls::faults::{BindFault, ConstantFault, PlaceFault};
use calls::jump::{JumpTo, jump};
use instructions::instruction::Instruction;
use lives::types::{Deed, Fault};
use program::faults::EmitFault;
use records::book::Book;
use records::counts::Counts;
use sealing::faults::SealFault;
use sealing::seal::seal;
use store::store::Store;

// It holds only counts.
#[derive(Drop)]
pub struct Open {
    pub(crate) counts: Counts,
}

impl Open {
    // An empty program.
    pub fn new() -> Open
        ensures { result.counts ≡ none }
    {
        Open {
            counts: Counts::default(),
        }
    }

    // How many halfwords of the store are the program's.
    pub fn used(&self) -> usize
        ensures { result ≡ self.now.counts.used }
    {
        self.counts.used as usize
    }

    // Writes an instruction, but no jump, behind the halfwords used so far.
    pub fn emit<S: Store>(&mut self, store: &mut S, i: &Instruction) -> Result<(), EmitFault>
        ensures answer { result ≡ emitted (length (S.halfwords store.old)) self.old.counts.used (item_of i.now) }
        ensures counts { self.new.counts ≡ when result (more_used self.old.counts (length (words (item_of i.now)))) self.old.counts }
        ensures after { S.halfwords store.new ≡ applied (when result (puts self.old.counts.used (words (item_of i.now))) []) (S.halfwords store.old) }
    {
        emit(&mut self.counts, store, i)
    }

    // Writes the pair that loads a register with a number, and notes its slot.
    pub fn constant<S: Store>(
        &mut self,
        store: &mut S,
        book: &mut Book,
        d: i64,
        value: i64,
    ) -> Result<(), ConstantFault>
        ensures answer { result ≡ constanted (length (S.halfwords store.old)) self.old.counts.used self.old.counts.slots d value }
        ensures counts { self.new.counts ≡ when result (more_slots self.old.counts) self.old.counts }
        ensures book { book.new ≡ when result (slot_in book.old self.old.counts.slots self.old.counts.used d) book.old }
        ensures after { S.halfwords store.new ≡ applied (when result (puts self.old.counts.used (pair d value)) []) (S.halfwords store.old) }
    {
        constant(&mut self.counts, store, book, d, value)
    }

    // Writes a jump at distance 0, and notes its place and label.
    pub fn jump<S: Store>(
        &mut self,
        store: &mut S,
        book: &mut Book,
        to: &JumpTo,
    ) -> Result<(), PlaceFault>
        ensures answer { result ≡ jumped (length (S.halfwords store.old)) self.old.counts.used self.old.counts.jumps to.now }
        ensures counts { self.new.counts ≡ when result (more_jumps self.old.counts (length (words (jump_item to.now)))) self.old.counts }
        ensures book { book.new ≡ when result (jump_in book.old self.old.counts.jumps self.old.counts.used (label_number to.now.label)) book.old }
        ensures after { S.halfwords store.new ≡ applied (when result (puts self.old.counts.used (words (jump_item to.now))) []) (S.halfwords store.old) }
    {
        jump(&mut self.counts, store, book, to)
    }

    // Binds a label at the program's end.
    pub fn bind(&mut self, book: &mut Book, label: i64) -> Result<(), BindFault>
        ensures answer { result ≡ bound self.old.counts.labels (labels_in self.old.counts book.old) label }
        ensures counts { self.new.counts ≡ when result (more_labels self.old.counts) self.old.counts }
        ensures book { book.new ≡ when result (label_in book.old self.old.counts.labels (label_number label) self.old.counts.used) book.old }
    {
        bind(&mut self.counts, book, label)
    }

    // Begins a try.
    pub fn begin(&mut self) -> Try<'_>
        ensures* writes_back { sem 𝓛 (LendsCounts self.entry result) }
        ensures counts { result.counts.now ≡ self.old.counts }
        ensures saved { result.saved ≡ self.old.counts }
        ensures kept { result.kept ≡ false }
    {
        Try::new(&mut self.counts)
    }

    // Gives each jump the distance to its label; where one fails, nothing is written and the open program comes back.
    pub fn seal<S: Store>(self, store: &mut S, book: &mut Book) -> Result<Sealed, (Open, SealFault)>
        ensures answer { result ≡ handed self.counts (tested (S.halfwords store.old) self.counts.used (labels_in self.counts book.old) (jumps_in self.counts book.old)) }
        ensures book { book.new ≡ when result (settled_book self.counts book.old) book.old }
        ensures after { S.halfwords store.new ≡ when result (laid (labels_in self.counts book.old) self.counts.used (jumps_in self.counts book.old) (S.halfwords store.old)) (S.halfwords store.old) }
        ensures aims { IfOk result (λ u. EachAims (labels_in self.counts book.old) self.counts.used (S.halfwords store.new) (jumps_in self.counts book.old)) }
    {
        match seal(self.counts, store, book) {
            Ok(()) => Ok(Sealed::of(self.counts)),
            Err(fault) => Err((self, fault)),
        }
    }

    // One call of those that an open program and a try take.
    pub(crate) fn carry<S: Store>(
        &mut self,
        store: &mut S,
        book: &mut Book,
        deed: &Deed,
    ) -> Result<(), Fault>
        ensures answer { result ≡ answered (length (S.halfwords store.old)) self.old.counts book.old deed.now }
        ensures counts { self.new.counts ≡ when result (counts_by deed.now self.old.counts) self.old.counts }
        ensures book { book.new ≡ when result (book_by deed.now self.old.counts book.old) book.old }
        ensures after { S.halfwords store.new ≡ applied (when result (puts_by deed.now self.old.counts) []) (S.halfwords store.old) }
    {
        match deed {
            Deed::Emit(i) => self.emit(store, i).map_err(Fault::Emit),
            Deed::Constant(l) => self
                .constant(store, book, l.d, l.value)
                .map_err(Fault::Constant),
            Deed::Jump(to) => self.jump(store, book, to).map_err(Fault::Jump),
            Deed::Bind(label) => self.bind(book, *label).map_err(Fault::Bind),
        }
    }
}
