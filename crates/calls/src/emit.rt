// Emit: one instruction more.
ghost use Rattle.std.specs.Prelude.{◌≡◌, [], length};
ghost use Rattle.store.specs.Answers.{when};
ghost use Rattle.store.specs.Puts.{applied, puts};
ghost use Rattle.records.specs.Records.{more_used};
ghost use Rattle.items.specs.Items.{item_of, words};
ghost use Rattle.calls.specs.Calls.{emitted};

use instructions::instruction::Instruction;
use program::append::append_plain;
use program::faults::EmitFault;
use records::counts::Counts;
use store::store::Store;

// Writes an instruction, but no jump, behind the halfwords used so far.
#[tactic(auto, unfolding(items::specs::Items::words, items::specs::Items::jumps))]
pub fn emit<S: Store>(counts: &mut Counts, store: &mut S, i: &Instruction) -> Result<(), EmitFault>
    ensures answer { result ≡ emitted (length (S.halfwords store.old)) counts.old.used (item_of i.now) }
    ensures counts { counts.new ≡ when result (more_used counts.old (length (words (item_of i.now)))) counts.old }
    ensures after { S.halfwords store.new ≡ applied (when result (puts counts.old.used (words (item_of i.now))) []) (S.halfwords store.old) }
{
    append_plain(counts, store, i)
}
