// The fields of a line: each is a part of the line's bytes.
ghost use Rattle.std.specs.Prelude.{◌≡◌, ◌==◌, ◌≤◌, length, is_some, nat_lt};
ghost use Rattle.std.specs.List.{slice_get};
ghost use Rattle.std.specs.Option.{ForSome, option_map};
ghost use Rattle.std.specs.Iterator.{YieldsFirstBy, item_count};
ghost use Rattle.text.specs.Fields.{fields, part, parts_from, field_of, text_of, place_of, FieldsExact};
ghost use Rattle.text.specs.Shown.{shown};

use crate::bytes::{part_place, parts, place};

// A field's bytes and the byte of the line at which it begins. A number begins with a minus or
// a digit, a word with anything else.
#[derive(Clone, Copy)]
pub enum Field<'a> {
    Word(&'a [u8], usize),
    Number(&'a [u8], usize),
    Empty(usize),
}

impl<'a> Field<'a> {
    // The field with these bytes, which begins at this byte of its line.
    fn new(text: &'a [u8], from: usize) -> Field<'a>
        ensures { shown result ≡ part text.now from }
    {
        match text {
            [] => Field::Empty(from),
            [b'-' | b'0'..=b'9', ..] => Field::Number(text, from),
            _ => Field::Word(text, from),
        }
    }

    // The field's bytes.
    pub fn text(self) -> &'a [u8]
        ensures { result.now ≡ text_of (shown self.entry) }
    {
        match self {
            Field::Word(bytes, _) | Field::Number(bytes, _) => bytes,
            Field::Empty(_) => &[],
        }
    }
}

// The fields of a line, one after the other.
// Stays an iterator of its own: std's `split` does not tell where in the line a field begins.
#[derive(Clone, Copy, Drop)]
pub struct Fields<'a> {
    line: &'a [u8],
    // the byte at which the next field begins, none past the last one
    next: Option<usize>,
    ghost inside: { ForSome next (λ p. p ≤ length line.now) },
}

impl<'a> Fields<'a> {
    // The fields of this line.
    pub fn of(line: &'a [u8]) -> Fields<'a>
        ensures line { result.line.now ≡ line.now }
        ensures next { result.next ≡ Some 0 }
    {
        Fields {
            line,
            next: Some(0),
        }
    }
}

impl<'a> Iterator for Fields<'a> {
    type Item = Field<'a>;

    ghost next_gives = { YieldsFirstBy shown (λ s. parts_from s.line.now s.next) };

    ghost remaining = { item_count (λ s. parts_from s.line.now s.next) };

    fn next(&mut self) -> Option<Field<'a>> {
        let from = self.next?;
        let rest = &self.line[from..];
        match place(rest, b',') {
            Some(end) => {
                self.next = Some(from + end + 1);
                Some(Field::new(&rest[..end], from))
            }
            None => {
                self.next = None;
                Some(Field::new(rest, from))
            }
        }
    }
}

// How many fields the line has.
pub fn count(line: &[u8]) -> usize
    ensures { result ≡ length (fields line.now) }
{
    parts(line, b',')
}

// The field past the next `k` of those still to come.
fn nth<'a>(mut fields: Fields<'a>, k: usize) -> Option<Field<'a>>
    ensures { option_map shown result ≡ slice_get (parts_from fields.entry.line.now fields.entry.next) k }
{
    fields.nth(k)
}

// Field `k` of the line, counted from 0; none where the line has no more than `k` fields.
#[tactic(auto, using(crate::proofs::Commas::field_among, crate::proofs::Commas::some_among, crate::proofs::Commas::some_shown))]
pub fn get<'a>(line: &'a [u8], k: usize) -> Option<Field<'a>>
    ensures is { option_map shown result ≡ field_of line.now k }
    ensures any { is_some result ≡ nat_lt k (length (fields line.now)) }
{
    nth(Fields::of(line), k)
}

// The number of the first field that has just the bytes `name`.
pub fn position(line: &[u8], name: &[u8]) -> Option<usize>
    ensures { result ≡ place_of (fields line.now) name.now }
{
    part_place(line, b',', name)
}

// The fields of a line are the only texts without a comma that write it.
pub fn fields_stand()
    ensures { FieldsExact }
{}
