// An instruction as an item: its halfwords, and whether it jumps.
ghost use Rattle.std.specs.Prelude.{◌≡◌};
ghost use Rattle.instructions.specs.Words.{listed};
ghost use Rattle.items.specs.Items.{item_of, words, jumps};

use instructions::build::known_form;
use instructions::instruction::Instruction;
use instructions::word::{Halfwords, halfwords_of};

// The halfwords of an instruction.
#[tactic(auto, unfolding(crate::specs::Items::words))]
pub fn halves_of(i: &Instruction) -> Halfwords
    ensures { listed result ≡ words (item_of i.now) }
{
    halfwords_of(i)
}

// Whether an instruction is a jump.
#[tactic(auto, unfolding(crate::specs::Items::jumps))]
pub fn is_jump(i: &Instruction) -> bool
    ensures { result ≡ jumps (item_of i.now) }
{
    known_form(i.op()).is_jump()
}
