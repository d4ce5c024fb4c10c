// Why no jump is made.
ghost use Rattle.std.specs.Prelude.{◌≡◌};
ghost use Rattle.aiming.specs.declared.faults.JumpFault.TheVariants.{Build};
ghost use Rattle.aiming.specs.Jumps.{refusal};

use instructions::fields::BuildFault;

#[derive(Clone, Copy, PartialEq, Eq, Debug)]
pub enum JumpFault {
    // the operation has no distance
    NoJump,
    // there is no such instruction
    Build(BuildFault),
}

impl From<BuildFault> for JumpFault {
    ghost from_gives = { λ b e. e ≡ Build b };

    fn from(b: BuildFault) -> JumpFault {
        JumpFault::Build(b)
    }
}

impl JumpFault {
    // The number of the refusal. Stays a number: callers are told it, as docs/REFUSALS.md lists it.
    pub fn number(&self) -> u8
        ensures { result ≡ refusal self.now }
    {
        match self {
            JumpFault::NoJump => 3,
            JumpFault::Build(b) => b.number(),
        }
    }
}
