// What a line of a script says.
ghost use Rattle.std.specs.Prelude.{◌≡◌, ◌==◌, cond, length, None};
ghost use Rattle.std.specs.List.{slice_get};
ghost use Rattle.text.specs.Found.{found};
ghost use Rattle.scripts.specs.Words.{words, number_at};
ghost use Rattle.scripts.specs.Verbs.{verb_of};
ghost use Rattle.operations.specs.Names.{placed};
ghost use Rattle.scripts.specs.Lines.{operation_at, with_words, emit_said, constant_said, jump_said, number_said, alone, verb_said, said_of, shown, shown_asked, shown_if, emits_built};

use crate::edits::Edits;
use crate::verb::Verb;
use crate::words::{count, get, number_at};
use calls::jump::JumpTo;
use instructions::build::build;
use instructions::fields::{BuildFault, Fields};
use lives::types::{Deed, Load};
use operations::names::by_name;
use operations::operation::Operation;

// A call.
#[derive(Drop)]
pub enum Asked {
    Do(Deed),
    Try,
    Keep,
    GiveUp,
    Seal,
    Change(Edits),
    Value(i64),
}

#[derive(Drop)]
pub enum Said {
    Call(Asked),
    // there is no such instruction to emit
    NoInstruction(BuildFault),
    // none of these
    Unknown,
}

impl Said {
    // What a line says.
    pub fn of(line: &[u8]) -> Said
        ensures { shown result ≡ said_of line.now }
    {
        known(line).unwrap_or(Said::Unknown)
    }
}

fn known(line: &[u8]) -> Option<Said>
    ensures { shown_if result ≡ found (found (slice_get (words line.now) 0) verb_of) (verb_said line.now) }
{
    let verb = Verb::by_name(get(line, 0)?)?;
    by_verb(line, verb)
}

fn by_verb(line: &[u8], verb: Verb) -> Option<Said>
    ensures { shown_if result ≡ verb_said line.now verb }
{
    match verb {
        Verb::Emit => emit(line),
        Verb::Constant => constant(line),
        Verb::Jump => jump(line),
        Verb::Bind => Some(Said::Call(Asked::Do(Deed::Bind(one(line)?)))),
        Verb::Try => alone(line, Asked::Try),
        Verb::Keep => alone(line, Asked::Keep),
        Verb::GiveUp => alone(line, Asked::GiveUp),
        Verb::Seal => alone(line, Asked::Seal),
        Verb::Change => Some(Said::Call(Asked::Change(Edits::of(line)?))),
        Verb::Value => Some(Said::Call(Asked::Value(one(line)?))),
    }
}

// The operation that word `k` names.
fn operation_at(line: &[u8], k: usize) -> Option<Operation>
    ensures { placed result ≡ operation_at line.now k }
{
    by_name(get(line, k)?)
}

// An instruction to emit, or why it is none.
fn built(op: Operation, fields: Fields) -> Said
    ensures { shown result ≡ emits_built op.place fields }
{
    match build(op, fields) {
        Ok(i) => Said::Call(Asked::Do(Deed::Emit(i))),
        Err(fault) => Said::NoInstruction(fault),
    }
}

fn emit(line: &[u8]) -> Option<Said>
    ensures { shown_if result ≡ emit_said line.now }
{
    if count(line) != 7 {
        return None;
    }
    let op = operation_at(line, 1)?;
    let fields = Fields {
        d: number_at(line, 2)?,
        a: number_at(line, 3)?,
        b: number_at(line, 4)?,
        n: number_at(line, 5)?,
        m: number_at(line, 6)?,
    };
    Some(built(op, fields))
}

fn constant(line: &[u8]) -> Option<Said>
    ensures { shown_if result ≡ constant_said line.now }
{
    if count(line) != 3 {
        return None;
    }
    let load = Load {
        d: number_at(line, 1)?,
        value: number_at(line, 2)?,
    };
    Some(Said::Call(Asked::Do(Deed::Constant(load))))
}

fn jump(line: &[u8]) -> Option<Said>
    ensures { shown_if result ≡ jump_said line.now }
{
    if count(line) != 6 {
        return None;
    }
    let to = JumpTo {
        op: operation_at(line, 1)?,
        d: number_at(line, 2)?,
        a: number_at(line, 3)?,
        b: number_at(line, 4)?,
        label: number_at(line, 5)?,
    };
    Some(Said::Call(Asked::Do(Deed::Jump(to))))
}

// The one number behind the first word.
fn one(line: &[u8]) -> Option<i64>
    ensures { result ≡ cond (length (words line.now) == 2) (number_at line.now 1) None }
{
    if count(line) != 2 {
        return None;
    }
    number_at(line, 1)
}

// What the first word says where it stands alone.
fn alone(line: &[u8], call: Asked) -> Option<Said>
    ensures { shown_if result ≡ alone line.now (shown_asked call) }
{
    (count(line) == 1).then_some(Said::Call(call))
}
