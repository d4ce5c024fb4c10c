// An answer as a line of text.
ghost use Rattle.std.specs.Prelude.{Some};
ghost use Rattle.scripts.specs.Told.{answer_text, refused_text};

use changing::faults::ChangeFault;
use lives::types::{Answer, Fault};
use sealing::faults::SealFault;
use std::fmt;

#[derive(Clone, Copy)]
pub struct Told(pub Answer);

// A refused call.
#[derive(Clone, Copy)]
struct Refused(Fault);

impl fmt::Display for Told {
    ghost output = { λ t. Some (answer_text t.0) };

    fn fmt<W: fmt::Write>(&self, f: &mut fmt::Formatter<W>) -> fmt::Result {
        match self.0 {
            Answer::Taken => write!(f, "ok"),
            Answer::Held(value) => write!(f, "ok {value}"),
            Answer::Refused(fault) => write!(f, "{}", Refused(fault)),
            Answer::OutOfState => write!(f, "state"),
        }
    }
}

impl fmt::Display for Refused {
    ghost output = { λ r. Some (refused_text r.0) };

    fn fmt<W: fmt::Write>(&self, f: &mut fmt::Formatter<W>) -> fmt::Result {
        let number = self.0.number();
        match self.0 {
            Fault::Seal(SealFault::Jump(bad)) => {
                write!(f, "refused {number} jump {} place {}", bad.jump, bad.place)
            }
            Fault::Change(ChangeFault::Entry(bad)) => {
                write!(f, "refused {number} entry {}", bad.entry)
            }
            _ => write!(f, "refused {number}"),
        }
    }
}
