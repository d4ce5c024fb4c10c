ghost use Rattle.std.specs.Prelude.{◌≡◌, ◌+◌, ◌-◌, ◌≤◌, length, slice_set};
ghost use Rattle.store.specs.Answers.{put_answer, when};
ghost use Rattle.store.specs.Part.{part};

use crate::store::{Store, StoreFault, inside};

/// At most `most` halfwords of a store below, from its place `from` on.
#[derive(Drop)]
pub struct Window<'a, S> {
    below: &'a mut S,
    from: usize,
    most: usize,
}

impl<'a, S: Store> Window<'a, S> {
    /// The window over what the store below has of these places.
    pub fn new(below: &'a mut S, from: usize, most: usize) -> Window<'a, S>
        ensures below { result.below ≡ below.entry }
        ensures from { result.from ≡ from }
        ensures most { result.most ≡ most }
    {
        Window { below, from, most }
    }
}

impl<S: Store> Store for Window<'_, S> {
    ghost halfwords = { λ w. part w.from w.most (S.Store.halfwords w.below.now) };

    fn size(&self) -> usize
        ensures all { result ≡ length (part self.now.from self.now.most (S.Store.halfwords self.now.below.now)) }
        ensures bounded { result ≤ 32768 }
        ensures reach { result ≤ 32768 - self.now.from }
    {
        self.below.size().saturating_sub(self.from).min(self.most)
    }

    #[tactic(auto, using(crate::proofs::Part::nth_part, crate::proofs::Part::none_part))]
    fn get(&self, place: usize) -> Option<u16> {
        if place < self.size() {
            self.below.get(self.from + place)
        } else {
            None
        }
    }

    #[tactic(auto, using(crate::proofs::Part::part_set))]
    fn put(&mut self, place: usize, half: u16) -> Result<(), StoreFault>
        ensures answer { result ≡ put_answer (part self.old.from self.old.most (S.Store.halfwords self.old.below.now)) place }
        ensures after { part self.new.from self.new.most (S.Store.halfwords self.new.below.now) ≡ slice_set (part self.old.from self.old.most (S.Store.halfwords self.old.below.now)) place half }
        ensures below { S.Store.halfwords self.new.below.now ≡ when result (slice_set (S.Store.halfwords self.old.below.now) (self.old.from + place) half) (S.Store.halfwords self.old.below.now) }
        ensures from { self.new.from ≡ self.old.from }
        ensures most { self.new.most ≡ self.old.most }
        ensures same { self.new.below.ghost_name ≡ self.old.below.ghost_name }
    {
        inside(place, self.size())?;
        self.below.put(self.from + place, half)
    }
}

/// Puts one halfword through a window over the store below.
pub fn put_part<S: Store>(
    below: &mut S,
    from: usize,
    most: usize,
    place: usize,
    half: u16,
) -> Result<(), StoreFault>
    ensures answer { result ≡ put_answer (part from most (S.halfwords below.old)) place }
    ensures below { S.halfwords below.new ≡ when result (slice_set (S.halfwords below.old) (from + place) half) (S.halfwords below.old) }
{
    let mut window = Window::new(below, from, most);
    window.put(place, half)
}
