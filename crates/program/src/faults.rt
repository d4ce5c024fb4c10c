// Why a call on a program is refused.
ghost use Rattle.std.specs.Prelude.{◌≡◌};
ghost use Rattle.program.specs.declared.faults.EmitFault.TheVariants.{Build, Full};
ghost use Rattle.program.specs.Calls.{no_room};
ghost use Rattle.program.specs.Numbers.{refusal};

use instructions::fields::BuildFault;
use store::store::StoreFault;

// The store ends too soon.
#[derive(Clone, Copy, PartialEq, Eq, Debug)]
pub struct NoRoom;

#[derive(Clone, Copy, PartialEq, Eq, Debug)]
pub enum EmitFault {
    // there is no such instruction, or it is a jump
    Build(BuildFault),
    // the store ends too soon
    Full,
}

impl From<StoreFault> for NoRoom {
    ghost from_gives = { λ s n. n ≡ no_room };

    fn from(_s: StoreFault) -> NoRoom {
        NoRoom
    }
}

impl From<BuildFault> for EmitFault {
    ghost from_gives = { λ b e. e ≡ Build b };

    fn from(b: BuildFault) -> EmitFault {
        EmitFault::Build(b)
    }
}

impl From<NoRoom> for EmitFault {
    ghost from_gives = { λ n e. e ≡ Full };

    fn from(_n: NoRoom) -> EmitFault {
        EmitFault::Full
    }
}

// Stays without a caller: others may lean on it, as it was promised before.
impl From<StoreFault> for EmitFault {
    ghost from_gives = { λ s e. e ≡ Full };

    fn from(_s: StoreFault) -> EmitFault {
        EmitFault::Full
    }
}

impl EmitFault {
    // The number of the refusal. Stays a number: callers are told it, as docs/REFUSALS.md lists it.
    pub fn number(&self) -> u8
        ensures { result ≡ refusal self.now }
    {
        match self {
            EmitFault::Build(b) => b.number(),
            EmitFault::Full => 5,
        }
    }
}
