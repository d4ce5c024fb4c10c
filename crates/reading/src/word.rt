// A word as an instruction.
ghost use Rattle.std.specs.Prelude.{◌≡◌, ℕ, ◌<◌, Decides, MatchOption, length, slice_index};
ghost use Rattle.operations.specs.Manual.{count};
ghost use Rattle.instructions.specs.Words.{the_word};
ghost use Rattle.reading.specs.Reading.{Reads, ReadsAs, ValuesAs, Coded, Unread};

use crate::fields::fields_of;
use crate::groups::candidates;
use bits::part::Values;
use dispatch::values_for;
use instructions::build::known_form;
use instructions::instruction::Instruction;
use operations::operation::Operation;
use operations::row::Form;

// Whether the fields have the operation's codes.
fn has_codes(form: &Form, v: &Values) -> bool
    ensures { Decides result (Coded form.now v.now) }
{
    form.opcode == v.opcode && form.funct3 == v.funct3 && form.funct == v.funct
}

// The fields of a word of that form, with the operation's codes.
fn values_of(form: &Form, w: u32) -> Option<Values>
    ensures { ValuesAs form.now w result }
{
    values_for(form.kind, w).filter(|v| has_codes(form, v))
}

// The word as an instruction of one operation.
fn read_as(op: Operation, w: u32) -> Option<Instruction>
    ensures { ReadsAs op.place w result }
{
    let known = known_form(op);
    let form = &known.form;
    if w & form.mask != form.bits {
        return None;
    }
    let v = values_of(form, w)?;
    Instruction::checked(op, fields_of(&known, &v)).ok()
}

// The word as an instruction of the operation at a place.
fn read_at(place: usize, w: u32) -> Option<Instruction>
    ensures { MatchOption result (place < count → Unread place w) (λ i. the_word i ≡ w) }
{
    read_as(Operation::at(place)?, w)
}

// The word as an instruction of the first of these operations that has it.
fn first_of(places: &[u8], w: u32) -> Option<Instruction>
    ensures { MatchOption result ((j : ℕ) → j < length places.now → slice_index places.now j < count → Unread (slice_index places.now j) w) (λ i. the_word i ≡ w) }
{
    for place in places {
        if let Some(i) = read_at(usize::from(*place), w) {
            return Some(i);
        }
    }
    None
}

// The word as an instruction of its group: no other operation has it.
fn first_read(w: u32) -> Option<Instruction>
    ensures { Reads w result }
{
    first_of(candidates(w), w)
}

// The instruction whose word it is.
pub fn read_word(w: u32) -> Option<Instruction>
    ensures { Reads w result }
{
    first_read(w)
}
