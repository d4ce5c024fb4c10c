// Building an instruction.
ghost use Rattle.std.specs.Prelude.{◌≡◌};
ghost use Rattle.std.specs.Result.{result_err};
ghost use Rattle.formats.specs.Lawful.{outcome};
ghost use Rattle.operations.specs.Manual.{form_at};
ghost use Rattle.instructions.specs.Faults.{fault};
ghost use Rattle.instructions.specs.Words.{shown, built};

use crate::faults::check;
use crate::fields::{BuildFault, Fields};
use crate::form::KnownForm;
use crate::instruction::Instruction;
use operations::operation::Operation;
use operations::table::form_of;

// The form of an operation, whose constant the code can handle.
pub fn known_form(op: Operation) -> KnownForm
    ensures is { result.form ≡ form_at op.place }
{
    let form = form_of(op);
    KnownForm { form }
}

impl Instruction {
    // The instruction of the operation with these fields, or their first fault.
    pub fn checked(op: Operation, fields: Fields) -> Result<Instruction, BuildFault>
        ensures answer { shown result ≡ outcome (fault (form_at op.place) fields) (op, fields) }
        ensures refusal { result_err result ≡ fault (form_at op.place) fields }
    {
        check(&known_form(op), &fields)?;
        Ok(Instruction::of(op, fields))
    }
}

// The same for what is no jump.
pub fn build(op: Operation, fields: Fields) -> Result<Instruction, BuildFault>
    ensures { shown result ≡ built op fields }
{
    if known_form(op).is_jump() {
        return Err(BuildFault::Jump);
    }
    Instruction::checked(op, fields)
}
