// Text written piece by piece into memory of a fixed size.
ghost use Rattle.std.specs.Prelude.{◌≡◌, ℕ, ◌+◌, ◌<◌, ◌≤◌, List, [], ◌++◌, ◌-◌, min, Some, Ok, length, take};
ghost use Rattle.std.specs.Io.{WritesAtMost};
ghost use Rattle.std.specs.Io.KnownBytes.{WriteAppends};
ghost use Rattle.text.specs.Decimal.{digits};
ghost use Rattle.text.specs.Words.{hex_of};
ghost use Rattle.text.specs.Written.{overwritten, hex_digit, hex};

use crate::words::Word;
use std::io;
use std::io::Write;
use std::marker::Model;

/// A text of at most `N` bytes. Each write puts its bytes at the end.
// Stays: std's `write!` says what it writes where it succeeds, and not that it succeeds where
// there is room. The writes here cannot fail, so numbers are written digit by digit.
#[derive(Drop)]
pub struct Text<const N: usize> {
    bytes: [u8; N],
    len: usize,
}

// Clauses see the bytes that are written.
impl<const N: usize> Model for Text<N> {
    ghost Value = { List ℕ };

    ghost view = { λ t. take t.len t.bytes };

    ghost invariant = { λ t. t.len ≤ N };
}

impl<const N: usize> Text<N> {
    /// Nothing is written.
    pub fn new() -> Self
        ensures { result ≡ [] }
    {
        Text {
            bytes: [0; N],
            len: 0,
        }
    }

    /// The bytes that are written.
    pub fn as_bytes(&self) -> &[u8]
        ensures bytes { result.now ≡ self.now }
        ensures within { length self.now ≤ N }
    {
        &self.bytes[..self.len]
    }

    /// Writes the bytes.
    pub fn write_bytes(&mut self, bytes: &[u8])
        requires { length self.old + length bytes.now ≤ N }
        ensures text { self.new ≡ self.old ++ bytes.now }
        ensures len { length self.new ≡ length self.old + length bytes.now }
    {
        let end = self.len + bytes.len();
        let all = &mut self.bytes[..];
        all[self.len..end].copy_from_slice(bytes);
        self.len = end;
    }

    /// Writes the number in decimal, with no leading zero.
    pub fn write_decimal(&mut self, n: u32)
        requires { length self.old + length (digits n) ≤ N }
        ensures text { self.new ≡ self.old ++ digits n }
        ensures len { length self.new ≡ length self.old + length (digits n) }
    {
        self.write_bytes(decimal(n).as_bytes());
    }

    /// Writes the word as `width` lower-case hexadecimal digits, the most significant first; those
    /// above the width are left out.
    pub fn write_hex(&mut self, word: u32, width: usize)
        requires { length self.old + width ≤ N }
        ensures text { self.new ≡ self.old ++ hex width word }
        ensures len { length self.new ≡ length self.old + width }
    {
        let end = self.len + width;
        let all = &mut self.bytes[..];
        fill_hex(&mut all[self.len..end], word);
        self.len = end;
    }

    /// Writes the word in hexadecimal, four digits a halfword.
    pub fn write_word(&mut self, word: Word)
        requires { length self.old + length (hex_of word) ≤ N }
        ensures text { self.new ≡ self.old ++ hex_of word }
        ensures len { length self.new ≡ length self.old + length (hex_of word) }
    {
        match word {
            Word::Short(half) => self.write_hex(u32::from(half), 4),
            Word::Wide(both) => self.write_hex(both, 8),
        }
    }

    /// Copies the text to the start of a buffer, and tells how long it is.
    pub fn copy_to(&self, out: &mut [u8]) -> usize
        requires { length self.now ≤ length out.old }
        ensures end { result ≡ length self.now }
        ensures after { out.new ≡ overwritten out.old 0 self.now }
    {
        out[..self.len].copy_from_slice(self.as_bytes());
        self.len
    }
}

impl<const N: usize> Write for Text<N> {
    ghost contents = { λ t. Some t };

    // Writes as many of the bytes as fit.
    fn write(&mut self, buf: &[u8]) -> io::Result<usize>
        ensures bound { WritesAtMost result buf.now }
        ensures bytes { WriteAppends (Some self.old) (Some self.new) result buf.now }
        ensures count { result ≡ Ok (min (length buf.now) (N - length self.old)) }
    {
        let n = buf.len().min(N - self.len);
        self.write_bytes(&buf[..n]);
        Ok(n)
    }

    fn flush(&mut self) -> io::Result<()> {
        Ok(())
    }
}

// The number in decimal: the digits of its tenth, and the last.
fn decimal(n: u32) -> Text<10>
    ensures { result ≡ digits n }
{
    let mut text = if n < 10 { Text::new() } else { decimal(n / 10) };
    text.write_bytes(&[b'0' + (n % 10) as u8]);
    text
}

// Fills a buffer with the last hexadecimal digits of a word.
#[tactic(auto, using(crate::proofs::Hex::hex_last))]
fn fill_hex(out: &mut [u8], word: u32)
    ensures { out.new ≡ hex (length out.old) word }
{
    if let Some((last, front)) = out.split_last_mut() {
        *last = hex_byte(word % 16);
        fill_hex(front, word / 16);
    }
}

// A hexadecimal digit as a byte.
fn hex_byte(digit: u32) -> u8
    requires { digit < 16 }
    ensures { result ≡ hex_digit digit }
{
    match digit as u8 {
        d @ 0..=9 => b'0' + d,
        d => b'a' + (d - 10),
    }
}
