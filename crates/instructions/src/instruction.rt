// An instruction: none exists that is not lawful.
ghost use Rattle.std.specs.Prelude.{◌≡◌, true};
ghost use Rattle.operations.specs.Manual.{form_at};
ghost use Rattle.instructions.specs.Faults.{lawful};

use crate::fields::Fields;
use operations::operation::Operation;

#[derive(Clone, Copy)]
pub struct Instruction {
    op: Operation,
    fields: Fields,
    ghost ok: { lawful (form_at op.place) fields ≡ true },
}

impl Instruction {
    // An instruction of lawful fields.
    pub fn of(op: Operation, fields: Fields) -> Instruction
        requires { lawful (form_at op.place) fields ≡ true }
        ensures op { result.op ≡ op }
        ensures fields { result.fields ≡ fields }
    {
        Instruction { op, fields }
    }

    pub fn op(&self) -> Operation
        ensures { result ≡ self.now.op }
    {
        self.op
    }

    pub fn fields(&self) -> Fields
        ensures { result ≡ self.now.fields }
    {
        self.fields
    }
}
