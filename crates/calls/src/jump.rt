// Jump: to a label that may be bound later.
ghost use Rattle.std.specs.Prelude.{◌≡◌, [], length, Some, None, MatchResult};
ghost use Rattle.store.specs.Answers.{when};
ghost use Rattle.store.specs.Puts.{applied, puts};
ghost use Rattle.records.specs.Records.{jump_in, more_jumps};
ghost use Rattle.aiming.specs.Jumps.{jump_fault};
ghost use Rattle.items.specs.Items.{item_of, words};
ghost use Rattle.calls.specs.Calls.{jump_item, jumped, label_number};

use crate::faults::PlaceFault;
use crate::labels::label_of;
use aiming::faults::JumpFault;
use aiming::make::jump_of;
use instructions::instruction::Instruction;
use operations::operation::Operation;
use program::append::append_word;
use records::book::{Book, JumpRecord};
use records::counts::Counts;
use store::store::Store;

// A jump's operation and registers, and its label.
#[derive(Clone, Copy)]
pub struct JumpTo {
    pub op: Operation,
    pub d: i64,
    pub a: i64,
    pub b: i64,
    pub label: i64,
}

// Its instruction, at distance 0; or why there is none.
fn unaimed(to: &JumpTo) -> Result<Instruction, JumpFault>
    ensures { MatchResult result (λ i. (jump_fault to.now.op.place to.now.d to.now.a to.now.b ≡ None) × (item_of i ≡ jump_item to.now)) (λ e. jump_fault to.now.op.place to.now.d to.now.a to.now.b ≡ Some e) }
{
    jump_of(to.op, to.d, to.a, to.b)
}

// Writes the jump at distance 0 behind the halfwords used so far, and notes it with its label.
#[tactic(auto, unfolding(items::specs::Items::words))]
pub fn jump<S: Store>(
    counts: &mut Counts,
    store: &mut S,
    book: &mut Book,
    to: &JumpTo,
) -> Result<(), PlaceFault>
    ensures answer { result ≡ jumped (length (S.halfwords store.old)) counts.old.used counts.old.jumps to.now }
    ensures counts { counts.new ≡ when result (more_jumps counts.old (length (words (jump_item to.now)))) counts.old }
    ensures book { book.new ≡ when result (jump_in book.old counts.old.jumps counts.old.used (label_number to.now.label)) book.old }
    ensures after { S.halfwords store.new ≡ applied (when result (puts counts.old.used (words (jump_item to.now))) []) (S.halfwords store.old) }
{
    let jump = unaimed(to)?;
    let label = label_of(to.label)?;
    if counts.jumps >= book.jumps.len() {
        return Err(PlaceFault::Jumps);
    }
    let place = counts.used;
    append_word(counts, store, &jump)?;
    book.jumps[counts.jumps] = JumpRecord {
        place,
        label,
        distance: 0,
    };
    counts.jumps += 1;
    Ok(())
}
