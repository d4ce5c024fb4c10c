// The calls of a life, and their answers.
ghost use Rattle.std.specs.Prelude.{◌≡◌};
ghost use Rattle.lives.specs.Numbers.{refusal};

use calls::faults::{BindFault, ConstantFault, PlaceFault};
use calls::jump::JumpTo;
use changing::edits::Edit;
use changing::faults::{ChangeFault, ValueFault};
use instructions::instruction::Instruction;
use program::faults::EmitFault;
use sealing::faults::SealFault;

// A register and the number that it is loaded with.
#[derive(Clone, Copy)]
pub struct Load {
    pub d: i64,
    pub value: i64,
}

// What an open program and a try take.
#[derive(Clone, Copy)]
pub enum Deed {
    Emit(Instruction),
    Constant(Load),
    Jump(JumpTo),
    Bind(i64),
}

#[derive(Clone, Copy)]
pub enum Call<'a> {
    Do(Deed),
    Try,
    Keep,
    GiveUp,
    Seal,
    Change(&'a [Edit]),
    Value(i64),
}

// Why a call is refused.
#[derive(Clone, Copy)]
pub enum Fault {
    Emit(EmitFault),
    Constant(ConstantFault),
    Jump(PlaceFault),
    Bind(BindFault),
    Seal(SealFault),
    Change(ChangeFault),
    Value(ValueFault),
}

impl Fault {
    // The number of the refusal. Stays a number: callers are told it, as docs/REFUSALS.md lists it.
    pub fn number(&self) -> u8
        ensures { result ≡ refusal self.now }
    {
        match self {
            Fault::Emit(e) => e.number(),
            Fault::Constant(e) => e.number(),
            Fault::Jump(e) => e.number(),
            Fault::Bind(e) => e.number(),
            Fault::Seal(e) => e.number(),
            Fault::Change(e) => e.number(),
            Fault::Value(e) => e.number(),
        }
    }
}

// Stays an enum of four: a taken call and a told value, a refusal and a call out of state are no two sides of a Result.
#[derive(Clone, Copy)]
pub enum Answer {
    Taken,
    // what the slot holds
    Held(i64),
    Refused(Fault),
    // the program's state takes no call of this kind
    OutOfState,
}

// A call and its answer.
#[derive(Clone, Copy)]
pub struct Entry<'a> {
    pub call: Call<'a>,
    pub answer: Answer,
}
