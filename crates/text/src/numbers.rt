// Numbers out of bytes: an optional minus and decimal digits, with no leading zero and no -0.
ghost use Rattle.std.specs.Prelude.{◌≡◌, ◌+◌, ◌-◌, ◌*◌, ◌^◌, if◌then◌else◌, Some, None};
ghost use Rattle.text.specs.Numbers.{is_digit, value_after, natural_of, under, plain, negated, number_of, value_of, NumeralsExact};
ghost use Rattle.text.specs.Shown.{shown};

use crate::fields::Field;

// The number with one digit more, if it is a digit and the number fits.
fn with_digit(n: u64, b: u8) -> Option<u64>
    ensures { result ≡ (if is_digit b then under (2 ^ 64) (Some (n * 10 + (b - 48))) else None) }
{
    if !b.is_ascii_digit() {
        return None;
    }
    n.checked_mul(10)?.checked_add(u64::from(b - b'0'))
}

// The number that the bytes write, if all are digits and it fits.
fn digits_value(bytes: &[u8]) -> Option<u64>
    ensures { result ≡ under (2 ^ 64) (value_after 0 bytes.now) }
{
    // Stays a loop: tried as a `try_fold`, and what it answers did not prove.
    let mut n = 0;
    for b in bytes {
        n = with_digit(n, *b)?;
    }
    Some(n)
}

// The same for digits without a leading zero.
fn natural(bytes: &[u8]) -> Option<u64>
    ensures { result ≡ under (2 ^ 64) (natural_of bytes.now) }
{
    match bytes {
        [] | [b'0', _, ..] => None,
        _ => digits_value(bytes),
    }
}

fn not_negative(bytes: &[u8]) -> Option<i64>
    ensures { result ≡ plain (natural_of bytes.now) }
{
    i64::try_from(natural(bytes)?).ok()
}

// What stands behind a minus.
fn negative(bytes: &[u8]) -> Option<i64>
    ensures { result ≡ negated (natural_of bytes.now) }
{
    match natural(bytes)? {
        0 => None,
        n => 0i64.checked_sub_unsigned(n),
    }
}

// The integer that the bytes write; none where they write none of signed 64 bits.
pub fn number(bytes: &[u8]) -> Option<i64>
    ensures { result ≡ number_of bytes.now }
{
    match bytes {
        [b'-', rest @ ..] => negative(rest),
        _ => not_negative(bytes),
    }
}

// What `number` answers is the integer whose numeral the bytes are.
pub fn numerals_stand()
    ensures { NumeralsExact }
{}

impl Field<'_> {
    // The field's value: 0 if it is empty, none if it is a word or no number of signed 64 bits.
    pub fn value(self) -> Option<i64>
        ensures { result ≡ value_of (shown self.entry) }
    {
        match self {
            Field::Word(_, _) => None,
            Field::Number(bytes, _) => number(bytes),
            Field::Empty(_) => Some(0),
        }
    }
}
