// Why a call on an open program is refused.
ghost use Rattle.std.specs.Prelude.{◌≡◌};
ghost use Rattle.calls.specs.declared.faults.ConstantFault.TheVariants as constant;
ghost use Rattle.calls.specs.declared.faults.PlaceFault.TheVariants as place;
ghost use Rattle.calls.specs.declared.faults.BindFault.TheVariants as bind;
ghost use Rattle.calls.specs.Numbers.{constant_refusal, place_refusal, bind_refusal};

use aiming::faults::JumpFault;
use program::faults::NoRoom;

// A label outside 0 to 63.
#[derive(Clone, Copy)]
pub struct NoLabel(pub i64);

#[derive(Clone, Copy, PartialEq, Eq, Debug)]
pub enum ConstantFault {
    // a register outside 1 to 31
    Register(i64),
    // no pair of instructions makes that number
    Range(i64),
    // there are 32 slots
    Slots,
    // the store ends too soon
    Full,
}

// Why a jump is not placed.
#[derive(Clone, Copy, PartialEq, Eq, Debug)]
pub enum PlaceFault {
    // there is no such jump
    Jump(JumpFault),
    // a label outside 0 to 63
    Label(i64),
    // there are 128 jumps
    Jumps,
    // the store ends too soon
    Full,
}

#[derive(Clone, Copy, PartialEq, Eq, Debug)]
pub enum BindFault {
    // a label outside 0 to 63
    Label(i64),
    // the label is bound
    Bound(i64),
}

impl From<NoRoom> for ConstantFault {
    ghost from_gives = { λ n e. e ≡ constant.Full };

    fn from(_n: NoRoom) -> ConstantFault {
        ConstantFault::Full
    }
}

impl From<JumpFault> for PlaceFault {
    ghost from_gives = { λ j e. e ≡ place.Jump j };

    fn from(j: JumpFault) -> PlaceFault {
        PlaceFault::Jump(j)
    }
}

impl From<NoRoom> for PlaceFault {
    ghost from_gives = { λ n e. e ≡ place.Full };

    fn from(_n: NoRoom) -> PlaceFault {
        PlaceFault::Full
    }
}

impl From<NoLabel> for PlaceFault {
    ghost from_gives = { λ n e. e ≡ place.Label n.0 };

    fn from(n: NoLabel) -> PlaceFault {
        PlaceFault::Label(n.0)
    }
}

impl From<NoLabel> for BindFault {
    ghost from_gives = { λ n e. e ≡ bind.Label n.0 };

    fn from(n: NoLabel) -> BindFault {
        BindFault::Label(n.0)
    }
}

impl ConstantFault {
    // The number of the refusal. Stays a number: callers are told it, as docs/REFUSALS.md lists it.
    pub fn number(&self) -> u8
        ensures { result ≡ constant_refusal self.now }
    {
        match self {
            ConstantFault::Register(_) => 1,
            ConstantFault::Range(_) => 2,
            ConstantFault::Slots => 6,
            ConstantFault::Full => 5,
        }
    }
}

impl PlaceFault {
    // The number of the refusal. Stays a number: callers are told it, as docs/REFUSALS.md lists it.
    pub fn number(&self) -> u8
        ensures { result ≡ place_refusal self.now }
    {
        match self {
            PlaceFault::Jump(j) => j.number(),
            PlaceFault::Label(_) => 7,
            PlaceFault::Jumps => 8,
            PlaceFault::Full => 5,
        }
    }
}

impl BindFault {
    // The number of the refusal. Stays a number: callers are told it, as docs/REFUSALS.md lists it.
    pub fn number(&self) -> u8
        ensures { result ≡ bind_refusal self.now }
    {
        match self {
            BindFault::Label(_) => 7,
            BindFault::Bound(_) => 9,
        }
    }
}
