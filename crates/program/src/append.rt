// Halfwords behind those used so far.
ghost use Rattle.std.specs.Prelude.{◌≡◌, [], length};
ghost use Rattle.store.specs.Answers.{when};
ghost use Rattle.store.specs.Puts.{applied, puts};
ghost use Rattle.records.specs.Records.{more_used};
ghost use Rattle.operations.specs.Manual.{form_at};
ghost use Rattle.instructions.specs.Faults.{reaches};
ghost use Rattle.instructions.specs.Words.{halfwords_in};
ghost use Rattle.program.specs.Calls.{spaced, no_room, emitted};

use crate::faults::{EmitFault, NoRoom};
use instructions::build::known_form;
use instructions::fields::BuildFault;
use instructions::instruction::Instruction;
use instructions::word::{Halfwords, halfwords_of};
use records::counts::Counts;
use store::store::{Store, write};

// Writes halfwords behind those used so far, and counts them.
pub fn append<S: Store>(counts: &mut Counts, store: &mut S, list: &[u16]) -> Result<(), NoRoom>
    ensures answer { result ≡ spaced no_room (length (S.halfwords store.old)) counts.old.used (length list.now) }
    ensures counts { counts.new ≡ when result (more_used counts.old (length list.now)) counts.old }
    ensures after { S.halfwords store.new ≡ applied (when result (puts counts.old.used list.now) []) (S.halfwords store.old) }
{
    let used = counts.used as usize;
    let end = used + list.len();
    if end > store.size() {
        return Err(NoRoom);
    }
    write(store, used, list)?;
    counts.used = end as u32;
    Ok(())
}

// Writes an instruction's word behind the halfwords used so far, and counts it.
pub fn append_word<S: Store>(
    counts: &mut Counts,
    store: &mut S,
    i: &Instruction,
) -> Result<(), NoRoom>
    ensures answer { result ≡ spaced no_room (length (S.halfwords store.old)) counts.old.used (length (halfwords_in i.now)) }
    ensures counts { counts.new ≡ when result (more_used counts.old (length (halfwords_in i.now))) counts.old }
    ensures after { S.halfwords store.new ≡ applied (when result (puts counts.old.used (halfwords_in i.now)) []) (S.halfwords store.old) }
{
    match halfwords_of(i) {
        Halfwords::One(a) => append(counts, store, &[a]),
        Halfwords::Two(a, b) => append(counts, store, &[a, b]),
    }
}

// The same for an instruction that is no jump.
pub fn append_plain<S: Store>(
    counts: &mut Counts,
    store: &mut S,
    i: &Instruction,
) -> Result<(), EmitFault>
    ensures answer { result ≡ emitted (length (S.halfwords store.old)) counts.old.used (reaches (form_at i.now.op.place).kind) (halfwords_in i.now) }
    ensures counts { counts.new ≡ when result (more_used counts.old (length (halfwords_in i.now))) counts.old }
    ensures after { S.halfwords store.new ≡ applied (when result (puts counts.old.used (halfwords_in i.now)) []) (S.halfwords store.old) }
{
    if known_form(i.op()).is_jump() {
        return Err(EmitFault::Build(BuildFault::Jump));
    }
    append_word(counts, store, i)?;
    Ok(())
}
