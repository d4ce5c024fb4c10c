// Jumps where they stand, in the terms of a listing.
ghost use Rattle.std.specs.Prelude.{◌≡◌, true, IfSome};
ghost use Rattle.aiming.specs.Standing.{spelled, listed_of};
ghost use Rattle.items.specs.Items.{item_of, words, jumps, distance, jump_standing, aimed_words};

use aiming::aim::aimed_halfwords;
use aiming::standing::jump_at;
use instructions::instruction::Instruction;
use instructions::word::Halfwords;
use store::store::Store;

// The jump whose whole word begins at a place of the first `used` halfwords.
fn standing_at<S: Store>(store: &S, used: usize, place: usize) -> Option<Instruction>
    ensures is { spelled result ≡ jump_standing (S.halfwords store.now) used place }
    ensures jumps { IfSome result (λ i. jumps (item_of i) ≡ true) }
{
    jump_at(store, used, place)
}

// The same, with places as they are recorded.
pub fn jump_standing<S: Store>(store: &S, used: u32, place: u32) -> Option<Instruction>
    ensures is { spelled result ≡ jump_standing (S.halfwords store.now) used place }
    ensures jumps { IfSome result (λ i. jumps (item_of i) ≡ true) }
{
    standing_at(store, used as usize, place as usize)
}

// The distance in bytes from one place to another.
pub fn distance_between(place: u32, goal: u32) -> i64
    ensures { result ≡ distance place goal }
{
    2 * (i64::from(goal) - i64::from(place))
}

// The halfwords of a jump at another distance: none where that is out of its reach.
fn aim_by(jump: &Instruction, distance: i64) -> Option<Halfwords>
    ensures { jumps (item_of jump.now) ≡ true → listed_of result ≡ aimed_words (item_of jump.now) distance }
{
    aimed_halfwords(jump, distance)
}

// The halfwords of a jump at one place that leads to another: none where that is out of its reach.
pub fn aim_to(jump: &Instruction, place: u32, goal: u32) -> Option<Halfwords>
    ensures { jumps (item_of jump.now) ≡ true → listed_of result ≡ aimed_words (item_of jump.now) (distance place goal) }
{
    aim_by(jump, distance_between(place, goal))
}
