// Words by walking the parts of a layout. Each walk is written out where it is called: where the layout is known, no loop is left.
ghost use Rattle.std.specs.Prelude.{◌≡◌};
ghost use Rattle.bits.specs.Layout.{word, value, width, bits_in, pick, picks, value_at, Handy, Handies, total};

use crate::fields::{cut, put};
use crate::part::{Field, Part, Values};

// The parts of a word, from the lowest bit up, within 32 bits.
#[derive(Clone, Copy)]
pub struct Layout<'a> {
    pub parts: &'a [Part],
    pub ghost handy: { Handies parts.now },
}

impl<'a> Layout<'a> {
    // How many bits its words have.
    #[inline(always)]
    pub fn width(&self) -> u32
        ensures { result ≡ total self.now.parts.now }
    {
        self.parts.iter().map(|part| width_of(*part)).sum()
    }

    // The word of the fields `v`.
    #[inline(always)]
    pub fn join(&self, v: &Values) -> u32
        ensures { result ≡ word self.now.parts.now v.now }
    {
        joined(self.parts, v)
    }

    // The field in the word `w`.
    #[inline(always)]
    pub fn pick(&self, field: Field, w: u32) -> u32
        ensures { result ≡ pick 0 self.now.parts.now field w }
    {
        let mut found = 0;
        let mut rest = w;
        for part in self.parts {
            found |= bits_in(*part, field, rest);
            rest >>= width_of(*part);
        }
        found
    }

    // The fields in the word `w`.
    #[inline(always)]
    pub fn picked(&self, w: u32) -> Values
        ensures { result ≡ picks self.now.parts.now w }
    {
        Values {
            d: self.pick(Field::D, w),
            a: self.pick(Field::A, w),
            b: self.pick(Field::B, w),
            n: self.pick(Field::N, w),
            m: self.pick(Field::M, w),
            opcode: self.pick(Field::Opcode, w),
            funct3: self.pick(Field::Funct3, w),
            funct: self.pick(Field::Funct, w),
        }
    }
}

// The word of the fields, from its highest part down.
#[inline(always)]
fn joined(parts: &[Part], v: &Values) -> u32
    requires { Handies parts.now }
    ensures { result ≡ word parts.now v.now }
{
    let mut bits = 0;
    for part in parts.iter().rev() {
        let width = width_of(*part);
        bits = put(value_of(*part, v), bits, width, 32 - width);
    }
    bits
}

fn field_value(field: Field, v: &Values) -> u32
    ensures { result ≡ value_at field v.now }
{
    match field {
        Field::D => v.d,
        Field::A => v.a,
        Field::B => v.b,
        Field::N => v.n,
        Field::M => v.m,
        Field::Opcode => v.opcode,
        Field::Funct3 => v.funct3,
        Field::Funct => v.funct,
    }
}

// Stays: a part may be written at any width, and a layout alone says that all lie within 32 bits.
fn value_of(part: Part, v: &Values) -> u32
    requires { Handy part }
    ensures { result ≡ value part v.now }
{
    match part {
        Part::Fixed(width, value) => cut(value, 0, width),
        Part::Slice(field, low, width) => cut(field_value(field, v), low, width),
    }
}

fn width_of(part: Part) -> u32
    ensures { result ≡ width part }
{
    match part {
        Part::Fixed(width, _) | Part::Slice(_, _, width) => width,
    }
}

// The part's bits of the field, where the part stands at the bottom of `rest`.
fn bits_in(part: Part, field: Field, rest: u32) -> u32
    requires { Handy part }
    ensures { result ≡ bits_in field part rest }
{
    match part {
        Part::Slice(of, low, width) => {
            if of == field {
                cut(rest, 0, width) << low
            } else {
                0
            }
        }
        Part::Fixed(_, _) => 0,
    }
}
