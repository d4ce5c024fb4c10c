// What jumps are sealed by.
ghost use Rattle.std.specs.Prelude.{◌≡◌, ◌+◌, ◌≤◌, [], map, length, true, Ok, IfSome, take};
ghost use Rattle.store.specs.Puts.{applied};
ghost use Rattle.instructions.specs.Words.{listed};
ghost use Rattle.records.specs.Records.{label_of, jump_of, place_of};
ghost use Rattle.aiming.specs.Standing.{spelled, listed_of};
ghost use Rattle.items.specs.Items.{item_of, jumps, in_reach, distance, jump_standing};
ghost use Rattle.sealing.specs.Sealing.{apart, where_apart, jump_judged, tested_from, put_at, jump_puts, distance_to, settled_record, noted, laid};

use crate::faults::{JumpCause, SealFault};
use crate::places::{is_apart, write_halves};
use instructions::instruction::Instruction;
use instructions::word::Halfwords;
use items::jump_items::{aim_to, distance_between, jump_standing};
use records::book::{JumpRecord, LabelRecord};
use records::labels::place_of;
use store::store::Store;

// The labels that are bound, and how many halfwords are used.
#[derive(Clone, Copy)]
pub struct Aims<'a> {
    pub labels: &'a [LabelRecord],
    pub used: u32,
}

// Whether a jump at one place can lead to another.
fn reaches(jump: &Instruction, place: u32, goal: u32) -> bool
    ensures { jumps (item_of jump.now) ≡ true → result ≡ in_reach (item_of jump.now) (distance place goal) }
{
    aim_to(jump, place, goal).is_some()
}

impl Aims<'_> {
    // The jump that stands at a place and shares no halfword with those before it.
    fn standing<S: Store>(
        &self,
        store: &S,
        before: &[JumpRecord],
        place: u32,
    ) -> Option<Instruction>
        ensures is { spelled result ≡ where_apart (apart (S.halfwords store.now) (map jump_of before.now) place) (jump_standing (S.halfwords store.now) self.now.used place) }
        ensures jumps { IfSome result (λ i. jumps (item_of i) ≡ true) }
    {
        if is_apart(store, before, place) {
            jump_standing(store, self.used, place)
        } else {
            None
        }
    }

    // What is wrong with the jump of that number, where those stand before it.
    fn judge<S: Store>(
        &self,
        store: &S,
        before: &[JumpRecord],
        number: usize,
        jump: &JumpRecord,
    ) -> Result<(), SealFault>
        ensures { result ≡ jump_judged number jump.now.place (place_of (map label_of self.now.labels.now) jump.now.label) (where_apart (apart (S.halfwords store.now) (map jump_of before.now) jump.now.place) (jump_standing (S.halfwords store.now) self.now.used jump.now.place)) (Ok tt) }
    {
        let place = jump.place;
        let Some(goal) = place_of(self.labels, jump.label) else {
            return Err(SealFault::of(number, place, JumpCause::Unbound));
        };
        let Some(standing) = self.standing(store, before, place) else {
            return Err(SealFault::of(number, place, JumpCause::NoJump));
        };
        if !reaches(&standing, place, goal) {
            return Err(SealFault::of(number, place, JumpCause::OutOfReach));
        }
        Ok(())
    }

    // The first jump that fails.
    pub fn test_jumps<S: Store>(&self, store: &S, jumps: &[JumpRecord]) -> Result<(), SealFault>
        ensures { result ≡ tested_from 0 (map label_of self.now.labels.now) (S.halfwords store.now) self.now.used [] (map jump_of jumps.now) }
    {
        for (k, jump) in jumps.iter().enumerate() {
            self.judge(store, &jumps[..k], k, jump)?;
        }
        Ok(())
    }

    // The halfwords of the jump at its place that leads to its label.
    fn aimed<S: Store>(&self, store: &S, jump: &JumpRecord) -> Option<Halfwords>
        ensures puts { put_at jump.now.place (listed_of result) ≡ jump_puts (map label_of self.now.labels.now) self.now.used (S.halfwords store.now) (jump_of jump.now) }
        ensures inside { IfSome result (λ h. jump.now.place + length (listed h) ≤ length (S.halfwords store.now)) }
    {
        let goal = place_of(self.labels, jump.label)?;
        let standing = jump_standing(store, self.used, jump.place)?;
        aim_to(&standing, jump.place, goal)
    }

    // The distance from a jump to its label, or 0 where that is not bound.
    fn distance_of(&self, jump: &JumpRecord) -> i64
        ensures { result ≡ distance_to jump.now.place (place_of (map label_of self.now.labels.now) jump.now.label) }
    {
        match place_of(self.labels, jump.label) {
            Some(goal) => distance_between(jump.place, goal),
            None => 0,
        }
    }

    // Writes a jump's word at the distance to its label, and notes the distance.
    fn settle<S: Store>(&self, store: &mut S, jump: &mut JumpRecord)
        ensures jump { jump.new ≡ settled_record (map label_of self.now.labels.now) jump.old }
        ensures after { S.halfwords store.new ≡ applied (jump_puts (map label_of self.now.labels.now) self.now.used (S.halfwords store.old) (jump_of jump.old)) (S.halfwords store.old) }
    {
        if let Some(halves) = self.aimed(store, jump) {
            write_halves(store, jump.place, halves);
        }
        jump.distance = self.distance_of(jump);
    }

    // The same for the first `count` jumps, in order.
    #[tactic(auto, using(crate::proofs::Settling::noted_step, crate::proofs::Settling::noted_end, crate::proofs::Settling::laid_step))]
    pub fn settle_jumps<S: Store>(&self, store: &mut S, jumps: &mut [JumpRecord], count: usize)
        ensures jumps { jumps.new ≡ noted (map label_of self.now.labels.now) count jumps.old }
        ensures after { S.halfwords store.new ≡ laid (map label_of self.now.labels.now) self.now.used (map jump_of (take count jumps.old)) (S.halfwords store.old) }
    {
        for k in 0..count.min(jumps.len()) {
            self.settle(store, &mut jumps[k]);
        }
    }
}
