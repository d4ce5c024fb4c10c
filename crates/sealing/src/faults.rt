// Why a program is not sealed.
ghost use Rattle.std.specs.Prelude.{◌≡◌};
ghost use Rattle.sealing.specs.Numbers.{cause_number, refusal};

// What is wrong with a jump.
#[derive(Clone, Copy, PartialEq, Eq, Debug)]
pub enum JumpCause {
    // its label is not bound
    Unbound,
    // its label lies out of its reach
    OutOfReach,
    // no whole jump of its own stands at its place, inside the used halfwords
    NoJump,
}

// A jump by its number, with its place, and what is wrong with it.
#[derive(Clone, Copy, PartialEq, Eq, Debug)]
pub struct BadJump {
    pub jump: usize,
    pub place: u32,
    pub cause: JumpCause,
}

#[derive(Clone, Copy, PartialEq, Eq, Debug)]
pub enum SealFault {
    // the store is shorter than the used halfwords
    Full,
    // the first jump that fails
    Jump(BadJump),
}

impl JumpCause {
    // The number of the refusal. Stays a number: callers are told it, as docs/REFUSALS.md lists it.
    fn number(&self) -> u8
        ensures { result ≡ cause_number self.now }
    {
        match self {
            JumpCause::Unbound => 10,
            JumpCause::OutOfReach => 11,
            JumpCause::NoJump => 11,
        }
    }
}

impl SealFault {
    // That fault of the jump of that number, at that place.
    pub fn of(jump: usize, place: u32, cause: JumpCause) -> SealFault
        ensures { result ≡ SealFault.Jump (record { jump = jump; place = place; cause = cause }) }
    {
        SealFault::Jump(BadJump { jump, place, cause })
    }

    // The number of the refusal. Stays a number: callers are told it, as docs/REFUSALS.md lists it.
    pub fn number(&self) -> u8
        ensures { result ≡ refusal self.now }
    {
        match self {
            SealFault::Full => 5,
            SealFault::Jump(bad) => bad.cause.number(),
        }
    }
}
