// Whether what a line tells is the answer here.
ghost use Rattle.std.specs.Prelude.{◌≡◌};
ghost use Rattle.std.specs.Option.{option_map};
ghost use Rattle.std.specs.Str.{bytes_eq};
ghost use Rattle.text.specs.Words.{hex_of};
ghost use Rattle.replay.specs.Operands.{text_at as text-at};
ghost use Rattle.replay.specs.Lines.{answer_of, written, encoded as encoded-of, agrees_of};

use crate::answer::{Answer, Word};
use crate::constants::{constructed, paired};
use crate::encoder::Encoder;
use crate::operand::operand_at;
use crate::rules::told;
use text::fields::{count, get};
use text::writing::Text;

// The answer of the encoder that the first field names.
fn answer(line: &[u8]) -> Option<Answer>
    ensures { result ≡ answer_of line.now }
{
    let e: Encoder = operand_at(line, 0)?;
    e.answer(line)
}

// Whether the text is this word in hexadecimal.
fn is_hex(text: &[u8], word: Word) -> bool
    ensures { result ≡ bytes_eq text.now (hex_of word) }
{
    let mut digits: Text<8> = Text::new();
    digits.write_word(word);
    text == digits.as_bytes()
}

fn is_written(text: &[u8], a: Answer) -> bool
    ensures { result ≡ bytes_eq text.now (written a) }
{
    match a {
        Ok(word) => is_hex(text, word),
        Err(_) => text == b"panic".as_slice(),
    }
}

// The text of field `k`.
pub(crate) fn text_at<'a>(line: &'a [u8], k: usize) -> Option<&'a [u8]>
    ensures { option_map (λ x. x.now) result ≡ text-at line.now k }
{
    Some(get(line, k)?.text())
}

// Whether the last field is the answer of the encoder.
fn encoded(line: &[u8]) -> Option<bool>
    ensures { result ≡ encoded-of line.now }
{
    let a = answer(line)?;
    let last = text_at(line, count(line).saturating_sub(1))?;
    Some(is_written(last, a))
}

// Whether what the line tells is the answer here.
pub(crate) fn agrees(line: &[u8]) -> bool
    ensures { result ≡ agrees_of line.now }
{
    encoded(line).unwrap_or(false)
        || constructed(line).unwrap_or(false)
        || paired(line).unwrap_or(false)
        || told(line).unwrap_or(false)
}
