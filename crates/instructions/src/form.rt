// The form of an operation, as the code handles it.
ghost use Rattle.std.specs.Prelude.{◌≡◌};
ghost use Rattle.instructions.specs.Faults.{Workable, Workable-prop, reaches};

use formats::kind::Kind;
use operations::row::Form;

// A form whose constant the code can handle.
// Stays beside Form: no constant table in static memory holds a struct with a ghost field.
#[derive(Clone, Copy)]
pub struct KnownForm {
    pub form: Form,
    ghost works: { Workable form.n } by { Workable-prop form.n },
}

impl KnownForm {
    pub fn kind(&self) -> Kind
        ensures { result ≡ self.now.form.kind }
    {
        self.form.kind
    }

    // Whether its operations are jumps.
    pub fn is_jump(&self) -> bool
        ensures { result ≡ reaches self.now.form.kind }
    {
        is_reaching(self.kind())
    }
}

// Whether the format has a distance: its operations are the jumps.
pub fn is_reaching(kind: Kind) -> bool
    ensures { result ≡ reaches kind }
{
    matches!(kind, Kind::B | Kind::J | Kind::Cj)
}
