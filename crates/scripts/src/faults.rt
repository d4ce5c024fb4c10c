// Why a script is not answered.
ghost use Rattle.std.specs.Prelude.{◌≡◌};
ghost use Rattle.scripts.specs.declared.faults.ScriptFault.TheVariants.{Io};

use std::io;

#[derive(Debug, Drop)]
pub enum ScriptFault {
    // more calls, or more slots and values, than there is room for
    TooLong,
    // the answers could not be written
    Io(io::Error),
}

impl From<io::Error> for ScriptFault {
    ghost from_gives = { λ e s. s ≡ Io e };

    fn from(e: io::Error) -> ScriptFault {
        ScriptFault::Io(e)
    }
}
