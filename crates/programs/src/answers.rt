// Answers of a life.
ghost use Rattle.std.specs.Prelude.{◌≡◌};
ghost use Rattle.lives.specs.Deeds.{told, told_value};

use changing::faults::ValueFault;
use lives::types::{Answer, Fault};

// An answer that a call gives, or why it is refused.
pub(crate) fn tell(verdict: Result<(), Fault>) -> Answer
    ensures { result ≡ told verdict }
{
    match verdict {
        Ok(()) => Answer::Taken,
        Err(fault) => Answer::Refused(fault),
    }
}

// What a slot holds, as an answer.
pub(crate) fn tell_value(found: Result<i64, ValueFault>) -> Answer
    ensures { result ≡ told_value found }
{
    match found {
        Ok(value) => Answer::Held(value),
        Err(fault) => Answer::Refused(Fault::Value(fault)),
    }
}
