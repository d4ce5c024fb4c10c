ghost use Rattle.std.specs.Prelude.{◌≡◌, ◌+◌, ◌*◌, ◌<◌, length, slice_index, slice_set};
ghost use Rattle.store.specs.Answers.{put_answer, when};
ghost use Rattle.store.specs.Halves.{held, with_half};

use crate::store::{Store, StoreFault, inside};

/// The bytes of a memory from a byte on, low byte of each halfword first.
#[derive(Drop)]
pub struct Bytes<'a> {
    memory: &'a mut [u8],
    start: usize,
}

impl<'a> Bytes<'a> {
    /// The store over the bytes from `start` on. An odd last byte and what lies past 32768 halfwords are left out.
    pub fn new(memory: &'a mut [u8], start: usize) -> Bytes<'a>
        ensures memory { result.memory ≡ memory.entry }
        ensures start { result.start ≡ start }
    {
        Bytes { memory, start }
    }
}

impl Store for Bytes<'_> {
    ghost halfwords = { λ s. held s.start s.memory.now };

    #[tactic(auto, using(crate::proofs::Halves::length_held))]
    fn size(&self) -> usize {
        (self.memory.len().saturating_sub(self.start) / 2).min(32768)
    }

    #[tactic(auto, using(crate::proofs::Halves::nth_read, crate::proofs::Halves::length_rest, crate::proofs::Halves::length_held, crate::proofs::Halves::none_past))]
    fn get(&self, place: usize) -> Option<u16> {
        if place < self.size() {
            Some(read_two(&self.memory[self.start..], 2 * place))
        } else {
            None
        }
    }

    #[tactic(auto, using(crate::proofs::Halves::held_with_half))]
    fn put(&mut self, place: usize, half: u16) -> Result<(), StoreFault>
        ensures answer { result ≡ put_answer (held self.old.start self.old.memory.now) place }
        ensures after { held self.new.start self.new.memory.now ≡ slice_set (held self.old.start self.old.memory.now) place half }
        ensures memory { self.new.memory.now ≡ when result (with_half self.old.memory.now (self.old.start + 2 * place) half) self.old.memory.now }
        ensures start { self.new.start ≡ self.old.start }
        ensures same { self.new.memory.ghost_name ≡ self.old.memory.ghost_name }
    {
        inside(place, self.size())?;
        let start = self.start;
        write_at(self.memory, start, place, half);
        Ok(())
    }
}

// The halfword whose low byte stands at `at`, and its high byte after it.
fn read_two(rest: &[u8], at: usize) -> u16
    requires { at + 1 < length rest.now }
    ensures { result ≡ slice_index rest.now at + 256 * slice_index rest.now (at + 1) }
{
    u16::from_le_bytes([rest[at], rest[at + 1]])
}

// Puts at a place counted from a byte on.
fn write_at(memory: &mut [u8], start: usize, place: usize, half: u16)
    requires { place < length (held start memory.old) }
    ensures { memory.new ≡ with_half memory.old (start + 2 * place) half }
{
    write_two(&mut memory[start..], 2 * place, half);
}

// Writes the low byte of a halfword at `at`, and the high byte after it.
fn write_two(rest: &mut [u8], at: usize, half: u16)
    requires { at + 1 < length rest.old }
    ensures { rest.new ≡ with_half rest.old at half }
{
    let [low, high] = half.to_le_bytes();
    rest[at] = low;
    rest[at + 1] = high;
}

/// Puts one halfword into a memory: at a place of the store over its bytes from `start` on.
pub fn put_bytes(memory: &mut [u8], start: usize, place: usize, half: u16) -> Result<(), StoreFault>
    ensures answer { result ≡ put_answer (held start memory.old) place }
    ensures memory { memory.new ≡ when result (with_half memory.old (start + 2 * place) half) memory.old }
{
    let mut store = Bytes::new(memory, start);
    store.put(place, half)
}
