// An instruction's fields, out of those of its word.
ghost use Rattle.std.specs.Prelude.{◌≡◌, ◌<◌};
ghost use Rattle.reading.specs.Fields.{reg_of, number_of, mask_of, fields_of, Narrow, Narrows};

use bits::part::Values;
use bits::signs::sign;
use instructions::fields::Fields;
use instructions::form::KnownForm;
use operations::row::{Masking, Number, Use};

// Stays a function, as the two below: they are the way back of instructions' private `Slot::in_word`, and a trait over three uses, public for this one caller, would say the three contracts twice.
fn reg_of(u: Option<Use>, x: u32) -> i64
    requires { x < 32 }
    ensures { result ≡ reg_of u x }
{
    match u {
        None => 0,
        Some(Use::Full(_, _)) => i64::from(x),
        Some(Use::Short(_)) => i64::from(x) + 8,
    }
}

// Takes the known form, since its unit is 1 to 16: the product fits.
fn number_of(form: &KnownForm, x: u32) -> i64
    requires { Narrow form.now.form.n x }
    ensures { result ≡ number_of form.now.form.n x }
{
    match form.form.n {
        None => 0,
        Some(Number::Signed { width, unit, .. }) => sign(x, width) * i64::from(unit),
        Some(Number::Unsigned { unit, .. }) => i64::from(x) * i64::from(unit),
    }
}

fn mask_of(u: Option<Masking>, x: u32) -> i64
    requires { x < 2 }
    ensures { result ≡ mask_of u x }
{
    match u {
        None => 0,
        Some(_) => 1 - i64::from(x),
    }
}

// The instruction's fields that stand in a word of that form.
pub fn fields_of(form: &KnownForm, v: &Values) -> Fields
    requires narrow { Narrows form.now.form v.now }
    ensures { result ≡ fields_of form.now.form v.now }
{
    let used = &form.form;
    Fields {
        d: reg_of(used.d, v.d),
        a: reg_of(used.a, v.a),
        b: reg_of(used.b, v.b),
        n: number_of(form, v.n),
        m: mask_of(used.m, v.m),
    }
}
