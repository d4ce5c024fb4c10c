// An operation: a row's place.
// Stays a number: it is the place of a row in the one table.
ghost use Rattle.std.specs.Prelude.{◌≡◌, ◌<◌, ◌≤◌, MatchOption};
ghost use Rattle.operations.specs.Manual.{count};

use crate::table::COUNT;

#[derive(Clone, Copy)]
pub struct Operation {
    pub place: usize,
    ghost real: { place < count },
}

impl Operation {
    // The operation at a place of the table.
    pub fn at(place: usize) -> Option<Operation>
        ensures { MatchOption result (count ≤ place) (λ op. op.place ≡ place) }
    {
        if place < COUNT {
            Some(Operation { place })
        } else {
            None
        }
    }
}
