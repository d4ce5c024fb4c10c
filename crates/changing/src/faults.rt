// Why a change is refused, or a value not told.
ghost use Rattle.std.specs.Prelude.{◌≡◌};
ghost use Rattle.changing.specs.Numbers.{cause_number, change_refusal, value_refusal};

// What is wrong with an entry of a change.
#[derive(Clone, Copy, PartialEq, Eq, Debug)]
pub enum EntryCause {
    // there is no such slot, or its four halfwords do not lie inside the used ones
    NoSlot(i64),
    // an entry before it names the slot
    Again(i64),
    // no pair of instructions makes that number
    Range(i64),
}

// An entry by its number, and what is wrong with it.
#[derive(Clone, Copy, PartialEq, Eq, Debug)]
pub struct BadEntry {
    pub entry: usize,
    pub cause: EntryCause,
}

#[derive(Clone, Copy, PartialEq, Eq, Debug)]
pub enum ChangeFault {
    // the store is shorter than the used halfwords
    Full,
    // the first entry that fails
    Entry(BadEntry),
}

#[derive(Clone, Copy, PartialEq, Eq, Debug)]
pub enum ValueFault {
    // the store is shorter than the used halfwords
    Full,
    // there is no such slot, or its four halfwords do not lie inside the used ones
    NoSlot(i64),
}

impl EntryCause {
    // The number of the refusal. Stays a number: callers are told it, as docs/REFUSALS.md lists it.
    fn number(&self) -> u8
        ensures { result ≡ cause_number self.now }
    {
        match self {
            EntryCause::NoSlot(_) => 12,
            EntryCause::Again(_) => 13,
            EntryCause::Range(_) => 2,
        }
    }
}

impl ChangeFault {
    // The number of the refusal. Stays a number: callers are told it, as docs/REFUSALS.md lists it.
    pub fn number(&self) -> u8
        ensures { result ≡ change_refusal self.now }
    {
        match self {
            ChangeFault::Full => 5,
            ChangeFault::Entry(bad) => bad.cause.number(),
        }
    }
}

impl ValueFault {
    // The number of the refusal. Stays a number: callers are told it, as docs/REFUSALS.md lists it.
    pub fn number(&self) -> u8
        ensures { result ≡ value_refusal self.now }
    {
        match self {
            ValueFault::Full => 5,
            ValueFault::NoSlot(_) => 12,
        }
    }
}
