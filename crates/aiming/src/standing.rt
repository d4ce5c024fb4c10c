// The jump that stands at a place.
ghost use Rattle.std.specs.Prelude.{◌≡◌, Some};
ghost use Rattle.aiming.specs.Standing.{spelled, reaching_only, instruction_of, jump_at};

use instructions::build::known_form;
use instructions::instruction::Instruction;
use reading::read::word_within;
use reading::word::read_word;
use store::store::Store;

// The instruction whose word it is.
fn instruction_of(w: u32) -> Option<Instruction>
    ensures { spelled result ≡ instruction_of w }
{
    read_word(w)
}

// The instruction, if it is a jump.
fn if_jump(i: Instruction) -> Option<Instruction>
    ensures { spelled result ≡ reaching_only (Some (i.op.place, i.fields)) }
{
    known_form(i.op()).is_jump().then_some(i)
}

// The jump whose whole word begins at a place of the first `used` halfwords.
pub fn jump_at<S: Store>(store: &S, used: usize, place: usize) -> Option<Instruction>
    ensures { spelled result ≡ jump_at (S.halfwords store.now) used place }
{
    let w = word_within(store, used, place)?;
    let i = instruction_of(w)?;
    if_jump(i)
}
