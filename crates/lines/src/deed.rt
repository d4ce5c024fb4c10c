// The call that a line gives.
ghost use Rattle.std.specs.Prelude.{◌≡◌, cond, Ok, Err, ◌==◌, unsigned_abs};
ghost use Rattle.instructions.specs.Faults.{reaches};
ghost use Rattle.operations.specs.Manual.{operations, form_at};
ghost use Rattle.operations.specs.Names.{named};
ghost use Rattle.lines.specs.declared.faults.LineFault.TheVariants.{Unused};
ghost use Rattle.lines.specs.Deeds.{operation_there, verb_named, verb_at, instruction, in_emit, jumping, deed_of, said};

use crate::columns::Columns;
use crate::faults::LineFault;
use crate::numbers::fields_of;
use bits::part::Field;
use calls::jump::JumpTo;
use instructions::build::{build, known_form};
use instructions::fields::{BuildFault, Fields};
use instructions::instruction::Instruction;
use lives::types::{Deed, Load};
use operations::names::by_name;
use operations::operation::Operation;
use program::faults::EmitFault;
use text::fields::{count, get};

// What the name of a line asks for.
#[derive(Clone, Copy)]
pub enum Verb {
    // a constant in a slot
    Const,
    // a label at the program's end
    Bind,
    // an instruction, or a jump to a label
    Work(Operation),
}

// The operation of that name.
fn operation_of(name: &[u8]) -> Option<Operation>
    ensures { result ≡ operation_there (named operations name.now) }
{
    by_name(name)
}

impl Verb {
    // What that name asks for.
    fn named(name: &[u8]) -> Option<Verb>
        ensures { result ≡ verb_named name.now }
    {
        if name == b"const".as_slice() {
            return Some(Verb::Const);
        }
        if name == b"bind".as_slice() {
            return Some(Verb::Bind);
        }
        operation_of(name).map(Verb::Work)
    }

    // What the name in field `k` asks for.
    fn at(line: &[u8], k: usize) -> Option<Verb>
        ensures { result ≡ verb_at line.now k }
    {
        Verb::named(get(line, k)?.text())
    }

    // The call with these fields.
    fn deed(self, fields: &Fields) -> Result<Deed, LineFault>
        ensures { result ≡ deed_of self fields.now }
    {
        match self {
            Verb::Const => constant(fields),
            Verb::Bind => bind(fields),
            Verb::Work(op) => {
                if known_form(op).is_jump() {
                    return jump(op, fields);
                }
                Ok(Deed::Emit(emitted(op, fields)?))
            }
        }
    }
}

// A field that is not used is 0.
fn unused(field: Field, value: i64) -> Result<(), LineFault>
    ensures { result ≡ cond (unsigned_abs value == 0) (Ok tt) (Err (Unused field value)) }
{
    if value == 0 {
        Ok(())
    } else {
        Err(LineFault::Unused(field, value))
    }
}

// A constant: the register d, the number n.
fn constant(fields: &Fields) -> Result<Deed, LineFault>
    ensures { result ≡ deed_of Verb.Const fields.now }
{
    unused(Field::A, fields.a)?;
    unused(Field::B, fields.b)?;
    unused(Field::M, fields.m)?;
    Ok(Deed::Constant(Load {
        d: fields.d,
        value: fields.n,
    }))
}

// A label that is bound: n.
fn bind(fields: &Fields) -> Result<Deed, LineFault>
    ensures { result ≡ deed_of Verb.Bind fields.now }
{
    unused(Field::D, fields.d)?;
    unused(Field::A, fields.a)?;
    unused(Field::B, fields.b)?;
    unused(Field::M, fields.m)?;
    Ok(Deed::Bind(fields.n))
}

// A jump, whose label is n.
fn jump(op: Operation, fields: &Fields) -> Result<Deed, LineFault>
    ensures { result ≡ jumping op fields.now }
{
    unused(Field::M, fields.m)?;
    Ok(Deed::Jump(JumpTo {
        op,
        d: fields.d,
        a: fields.a,
        b: fields.b,
        label: fields.n,
    }))
}

// The instruction with these fields, or their first fault.
fn built(op: Operation, fields: Fields) -> Result<Instruction, BuildFault>
    ensures { result ≡ instruction op fields }
{
    build(op, fields)
}

// An instruction to be emitted, or why there is none.
fn emitted(op: Operation, fields: &Fields) -> Result<Instruction, EmitFault>
    ensures { result ≡ in_emit (instruction op fields.now) }
{
    Ok(built(op, *fields)?)
}

// The call that a line gives, or the line's first fault.
pub fn deed_of(columns: &Columns, line: &[u8]) -> Result<Deed, LineFault>
    ensures { result ≡ said columns.now line.now }
{
    let fields = count(line);
    if fields != 6 {
        return Err(LineFault::FieldCount(fields));
    }
    let verb = Verb::at(line, columns.op).ok_or(LineFault::UnknownOperation)?;
    verb.deed(&fields_of(columns, line)?)
}
