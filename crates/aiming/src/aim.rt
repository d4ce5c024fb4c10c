// The same jump at another distance.
ghost use Rattle.std.specs.Prelude.{◌≡◌, ℕ, ◌<◌, true, Some};
ghost use Rattle.bits.specs.declared.part.Field.TheVariants.{N};
ghost use Rattle.bits.specs.Layout.{span};
ghost use Rattle.formats.specs.Layouts.{layout};
ghost use Rattle.operations.specs.Manual.{form_at, count};
ghost use Rattle.instructions.specs.declared.fields.Fields.{Fields};
ghost use Rattle.instructions.specs.Faults.{lawful, reaches};
ghost use Rattle.instructions.specs.Words.{word_of};
ghost use Rattle.aiming.specs.Standing.{reaching_only, jump_at, aimed, worded, halfwords_found, listed_of};

use crate::standing::jump_at;
use formats::kind::Kind;
use formats::reaching::{Reaching, retarget};
use instructions::build::known_form;
use instructions::instruction::Instruction;
use instructions::word::{Halfwords, word_of};
use store::store::Store;

// The word of an instruction of a reaching format, at the distance `d`: none where that is odd or out of reach.
fn aim_by<const WIDTH: u32, F: Reaching<WIDTH>>(w: u32, d: i64) -> Option<u32>
    ensures { (k : ℕ) (f : Fields) → k < count → lawful (form_at k) f ≡ true → (form_at k).kind ≡ F.Format.kind → word_of (form_at k) f ≡ w → reaches F.Format.kind ≡ true → span (layout F.Format.kind) N ≡ WIDTH → result ≡ worded (aimed (reaching_only (Some (k, f))) d) }
{
    retarget::<WIDTH, F>(w, d)
}

// The word of an instruction of that kind, at the distance `d`, if it is a jump that reaches so far.
#[tactic(auto, using(crate::proofs::Aims::not_aimed))]
fn aim_word(kind: Kind, w: u32, d: i64) -> Option<u32>
    ensures { (k : ℕ) (f : Fields) → k < count → lawful (form_at k) f ≡ true → (form_at k).kind ≡ kind → word_of (form_at k) f ≡ w → result ≡ worded (aimed (reaching_only (Some (k, f))) d) }
{
    match kind {
        Kind::B => aim_by::<12, jumps::b::B>(w, d),
        Kind::J => aim_by::<20, jumps::j::J>(w, d),
        Kind::Cj => aim_by::<11, jumps::cj::Cj>(w, d),
        _ => None,
    }
}

// The word of the same jump at another distance: none where it is no jump, or the distance is odd or out of reach.
pub fn aim(jump: &Instruction, distance: i64) -> Option<u32>
    ensures { result ≡ worded (aimed (reaching_only (Some (jump.now.op.place, jump.now.fields))) distance) }
{
    aim_word(known_form(jump.op()).kind(), word_of(jump), distance)
}

// The halfwords of the same jump at another distance.
pub fn aimed_halfwords(jump: &Instruction, distance: i64) -> Option<Halfwords>
    ensures { listed_of result ≡ halfwords_found (aimed (reaching_only (Some (jump.now.op.place, jump.now.fields))) distance) }
{
    let w = aim(jump, distance)?;
    Some(Halfwords::of(w))
}

// The halfwords of the jump at a place of the first `used`, at another distance.
pub fn aimed_at<S: Store>(store: &S, used: usize, place: usize, distance: i64) -> Option<Halfwords>
    ensures { listed_of result ≡ halfwords_found (aimed (jump_at (S.halfwords store.now) used place) distance) }
{
    let jump = jump_at(store, used, place)?;
    aimed_halfwords(&jump, distance)
}
