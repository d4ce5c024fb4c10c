ghost use Rattle.std.specs.Prelude.{◌≡◌, replicate};

use crate::store::{Store, StoreFault, inside};

/// A store of 256 halfwords.
#[derive(Drop)]
pub struct BuiltIn {
    halfwords: [u16; 256],
}

impl BuiltIn {
    /// All halfwords are zero.
    pub fn new() -> BuiltIn
        ensures { result.halfwords ≡ replicate 256 0 }
    {
        BuiltIn {
            halfwords: [0u16; 256],
        }
    }
}

impl Store for BuiltIn {
    ghost halfwords = { λ s. s.halfwords };

    fn size(&self) -> usize {
        self.halfwords.len()
    }

    fn get(&self, place: usize) -> Option<u16> {
        self.halfwords.get(place).copied()
    }

    fn put(&mut self, place: usize, half: u16) -> Result<(), StoreFault> {
        inside(place, self.size())?;
        // Stays an index: std doesn't say what a slice holds after a write through its `get_mut`.
        self.halfwords[place] = half;
        Ok(())
    }
}
