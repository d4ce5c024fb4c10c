// A vector: an operation's name, its five fields, and its word in hexadecimal.
ghost use Rattle.std.specs.Prelude.{◌≡◌, ◌≤◌};
ghost use Rattle.std.specs.Str.{bytes_eq};
ghost use Rattle.cases.specs.Lines.{number_at, fields_in, made_in, digit_count, written, agreed_in, agrees_in};

use crate::made::word_made;
use instructions::fields::Fields;
use text::fields::get;
use text::writing::Text;

// The number in field `k`.
fn number_at(line: &[u8], k: usize) -> Option<i64>
    ensures { result ≡ number_at line.now k }
{
    get(line, k)?.value()
}

fn fields_in(line: &[u8]) -> Option<Fields>
    ensures { result ≡ fields_in line.now }
{
    Some(Fields {
        d: number_at(line, 1)?,
        a: number_at(line, 2)?,
        b: number_at(line, 3)?,
        n: number_at(line, 4)?,
        m: number_at(line, 5)?,
    })
}

// The word of the operation and fields that the line gives.
fn made_in(line: &[u8]) -> Option<u32>
    ensures { result ≡ made_in line.now }
{
    let name = get(line, 0)?.text();
    word_made(name, fields_in(line)?)
}

// How many hexadecimal digits the word has: four a halfword.
fn digit_count(word: u32) -> usize
    ensures is { result ≡ digit_count word }
    ensures few { result ≤ 8 }
{
    if word % 4 == 3 { 8 } else { 4 }
}

// Whether the text is this word in hexadecimal.
fn is_written(text: &[u8], word: u32) -> bool
    ensures { result ≡ bytes_eq text.now (written word) }
{
    let mut digits: Text<8> = Text::new();
    digits.write_hex(word, digit_count(word));
    text == digits.as_bytes()
}

fn agreed(line: &[u8]) -> Option<bool>
    ensures { result ≡ agreed_in line.now }
{
    let word = made_in(line)?;
    let text = get(line, 6)?.text();
    Some(is_written(text, word))
}

// Whether the word of the line is what the library makes of its operation and fields.
pub(crate) fn agrees(line: &[u8]) -> bool
    ensures { result ≡ agrees_in line.now }
{
    agreed(line).unwrap_or(false)
}
