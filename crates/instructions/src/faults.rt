// The first fault of an operation's fields, in the order of refusal.
ghost use Rattle.std.specs.Prelude.{◌≡◌, ◌&&◌, ◌==◌, true, false, MatchResult, unsigned_abs};
ghost use Rattle.instructions.specs.Faults.{idle, vectored, unlike, first, unused_checks, range_checks, rule_checks, overlap_checks, fault, Finds};
ghost use Rattle.instructions.specs.Numbers.{refusal};

use crate::fields::{BuildFault, Fields};
use crate::form::KnownForm;
use crate::slot::Slot;
use bits::part::Field;
use operands::regs::Class;
use operations::row::{Form, Use};

// Whether the field is used, or else 0.
fn is_idle<U: Copy>(u: Option<U>, x: i64) -> bool
    ensures { result ≡ idle u x }
{
    u.is_some() || x == 0
}

// Whether x and y differ where they must.
fn differs(must: bool, x: i64, y: u64) -> bool
    ensures { result ≡ unlike must x y }
{
    !must || x.unsigned_abs() != y
}

fn source_a(form: &Form) -> bool
    ensures { result ≡ (form.now.forbids.sources && vectored form.now.a) }
{
    form.forbids.sources && matches!(form.a, Some(Use::Full(Class::Vector, _)))
}

fn masks_v0(form: &Form, f: &Fields) -> bool
    ensures { result ≡ (form.now.forbids.mask && unsigned_abs f.now.m == 1) }
{
    form.forbids.mask && f.m.unsigned_abs() == 1
}

// Refuses with that fault what does not hold.
fn require(holds: bool, fault: BuildFault) -> Result<(), BuildFault>
    ensures { MatchResult result (λ _. holds ≡ true) (λ e. (holds ≡ false) × (e ≡ fault)) }
{
    if holds { Ok(()) } else { Err(fault) }
}

// Refuses a value of a field that the operation does not use.
fn unused(form: &Form, f: &Fields) -> Result<(), BuildFault>
    ensures { Finds result (first (unused_checks form.now f.now)) }
{
    require(is_idle(form.d, f.d), BuildFault::Unused(Field::D, f.d))?;
    require(is_idle(form.a, f.a), BuildFault::Unused(Field::A, f.a))?;
    require(is_idle(form.b, f.b), BuildFault::Unused(Field::B, f.b))?;
    require(is_idle(form.n, f.n), BuildFault::Unused(Field::N, f.n))?;
    require(is_idle(form.m, f.m), BuildFault::Unused(Field::M, f.m))
}

// Refuses a value outside its field's range.
fn ranges(form: &KnownForm, f: &Fields) -> Result<(), BuildFault>
    ensures { Finds result (first (range_checks form.now.form f.now)) }
{
    let used = &form.form;
    require(used.d.holds(f.d), BuildFault::Register(Field::D, f.d))?;
    require(used.a.holds(f.a), BuildFault::Register(Field::A, f.a))?;
    require(used.b.holds(f.b), BuildFault::Register(Field::B, f.b))?;
    require(used.n.holds(f.n), BuildFault::Constant(f.n))?;
    require(used.m.holds(f.m), BuildFault::MaskBit(f.m))
}

// Refuses a value of the range that the operation does not take.
fn rules(form: &Form, f: &Fields) -> Result<(), BuildFault>
    ensures { Finds result (first (rule_checks form.now f.now)) }
{
    require(form.d.may_be(f.d), BuildFault::Forbidden(Field::D, f.d))?;
    require(form.a.may_be(f.a), BuildFault::Forbidden(Field::A, f.a))?;
    require(form.b.may_be(f.b), BuildFault::Forbidden(Field::B, f.b))?;
    require(form.n.may_be(f.n), BuildFault::Forbidden(Field::N, f.n))?;
    require(form.m.may_be(f.m), BuildFault::Masked(f.m))
}

// Refuses a destination that is also a source where the operation forbids it.
fn overlaps(form: &Form, f: &Fields) -> Result<(), BuildFault>
    ensures { Finds result (first (overlap_checks form.now f.now)) }
{
    let apart = form.forbids.sources;
    require(
        differs(apart, f.d, f.b.unsigned_abs()),
        BuildFault::Overlap(Field::B),
    )?;
    require(
        differs(source_a(form), f.d, f.a.unsigned_abs()),
        BuildFault::Overlap(Field::A),
    )?;
    require(
        differs(masks_v0(form, f), f.d, 0),
        BuildFault::Overlap(Field::M),
    )
}

// Refuses fields that are not lawful as an instruction of that form, with their first fault.
pub fn check(form: &KnownForm, f: &Fields) -> Result<(), BuildFault>
    ensures { Finds result (fault form.now.form f.now) }
{
    unused(&form.form, f)?;
    ranges(form, f)?;
    rules(&form.form, f)?;
    overlaps(&form.form, f)
}

impl BuildFault {
    // The number of the refusal. Stays a number: callers are told it, as docs/REFUSALS.md lists it.
    pub fn number(&self) -> u8
        ensures { result ≡ refusal self.now }
    {
        match self {
            BuildFault::Register(_, _) => 1,
            BuildFault::Constant(_) | BuildFault::MaskBit(_) => 2,
            BuildFault::Jump | BuildFault::Unused(_, _) => 3,
            BuildFault::Forbidden(_, _) | BuildFault::Masked(_) => 3,
            BuildFault::Overlap(_) => 4,
        }
    }
}
