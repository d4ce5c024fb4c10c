// Immediates.
ghost use Rattle.std.specs.Prelude.{◌≡◌, ◌^◌, ◌<◌, ◌≤◌, pos, MatchOption, MatchResult};
ghost use Rattle.bits.specs.Twos.{twos, signed};
ghost use Rattle.operands.specs.Ranges.{Within, Within5, Within6, Within12, Within20, Reach, halved};

use crate::range::{OutOfRange, cut, fits, holds};
use bits::signs::sign;

// A number of WIDTH bits in two's complement.
#[derive(Clone, Copy, PartialEq, Eq, Debug)]
pub struct Signed<const WIDTH: u32> {
    pub(crate) value: i64,
    ghost ok: { Within WIDTH value },
}

// -16 to 15
pub type Imm5 = Signed<5>;

// -32 to 31
pub type Imm6 = Signed<6>;

// -2048 to 2047
pub type Imm12 = Signed<12>;

// -524288 to 524287
pub type Imm20 = Signed<20>;

impl<const WIDTH: u32> TryFrom<i64> for Signed<WIDTH> {
    type Error = OutOfRange;

    ghost try_from_gives = { λ n r. MatchResult r (λ i. i.value ≡ n) (λ _. Within WIDTH n → ⊥) };

    fn try_from(value: i64) -> Result<Signed<WIDTH>, OutOfRange> {
        if holds(WIDTH, value) {
            Ok(Signed { value })
        } else {
            Err(OutOfRange)
        }
    }
}

// The number whose bits these are.
impl<const WIDTH: u32> From<Unsigned<WIDTH>> for Signed<WIDTH> {
    ghost from_gives = { λ b i. twos WIDTH i.value ≡ b.value };

    fn from(bits: Unsigned<WIDTH>) -> Signed<WIDTH> {
        Signed {
            value: bits.extend(),
        }
    }
}

impl<const WIDTH: u32> From<Signed<WIDTH>> for i64 {
    ghost from_gives = { λ i n. n ≡ i.value };

    fn from(number: Signed<WIDTH>) -> i64 {
        number.value
    }
}

impl<const WIDTH: u32> Signed<WIDTH> {
    pub fn zero() -> Signed<WIDTH>
        ensures { result.value ≡ pos 0 }
    {
        Signed { value: 0 }
    }

    // A u64 is read as signed.
    pub fn maybe_from_u64(val: u64) -> Option<Signed<WIDTH>>
        ensures { MatchOption result (Within WIDTH (signed 64 val) → ⊥) (λ i. i.value ≡ signed 64 val) }
    {
        Signed::maybe_from_i64(val.cast_signed())
    }

    pub fn maybe_from_i64(val: i64) -> Option<Signed<WIDTH>>
        ensures { MatchOption result (Within WIDTH val → ⊥) (λ i. i.value ≡ val) }
    {
        Signed::try_from(val).ok()
    }

    // The number whose bits these are.
    // Stays: it asks as Unsigned::of_bits does, for those who hold a plain field of a word and the fact that it fits.
    pub fn of_bits(bits: u32) -> Signed<WIDTH>
        requires { bits < 2 ^ WIDTH }
        ensures { twos WIDTH result.value ≡ bits }
    {
        Signed::from(Unsigned::of_bits(bits))
    }
}

// Stays: each immediate has bits of its own, a u8 for Imm5 and Imm6 and a u32 for the others; one body for every width would ask of callers
// that the width be small, as the bits of a wider number are no u32.
impl Imm5 {
    pub fn maybe_from_i8(val: i8) -> Option<Imm5>
        ensures { MatchOption result (Within5 val → ⊥) (λ i. i.value ≡ val) }
    {
        Imm5::maybe_from_i64(i64::from(val))
    }

    // The immediate of five bits: none where there are more.
    pub fn from_bits(value: u8) -> Option<Imm5>
        ensures { MatchOption result (2 ^ 5 ≤ value) (λ i. twos 5 i.value ≡ value) }
    {
        let bits = UImm5::maybe_from_u8(value)?;
        Some(Imm5::from(bits))
    }

    // The two's complement, cut to five bits.
    pub fn bits(&self) -> u8
        ensures is { result ≡ twos 5 self.now.value }
        ensures narrow { result < 2 ^ 5 }
    {
        cut(self.value, 5) as u8
    }
}

impl Imm6 {
    pub fn maybe_from_i16(val: i16) -> Option<Imm6>
        ensures { MatchOption result (Within6 val → ⊥) (λ i. i.value ≡ val) }
    {
        Imm6::maybe_from_i32(i32::from(val))
    }

    pub fn maybe_from_i32(val: i32) -> Option<Imm6>
        ensures { MatchOption result (Within6 val → ⊥) (λ i. i.value ≡ val) }
    {
        Imm6::maybe_from_i64(i64::from(val))
    }

    pub fn maybe_from_imm12(value: Imm12) -> Option<Imm6>
        ensures { MatchOption result (Within6 value.value → ⊥) (λ i. i.value ≡ value.value) }
    {
        Imm6::maybe_from_i64(i64::from(value))
    }

    // The two's complement, cut to six bits.
    pub fn bits(&self) -> u8
        ensures is { result ≡ twos 6 self.now.value }
        ensures narrow { result < 2 ^ 6 }
    {
        cut(self.value, 6) as u8
    }
}

impl Imm12 {
    pub fn one() -> Imm12
        ensures { result.value ≡ pos 1 }
    {
        Signed { value: 1 }
    }

    pub fn from_i16(val: i16) -> Option<Imm12>
        ensures { MatchOption result (Within12 val → ⊥) (λ i. i.value ≡ val) }
    {
        Imm12::maybe_from_i64(i64::from(val))
    }

    pub fn as_i16(&self) -> i16
        ensures { result ≡ self.now.value }
    {
        self.value as i16
    }

    // The two's complement, cut to twelve bits.
    pub fn bits(&self) -> u32
        ensures is { result ≡ twos 12 self.now.value }
        ensures narrow { result < 2 ^ 12 }
    {
        cut(self.value, 12)
    }
}

impl Imm20 {
    pub fn from_i32(val: i32) -> Option<Imm20>
        ensures { MatchOption result (Within20 val → ⊥) (λ i. i.value ≡ val) }
    {
        Imm20::maybe_from_i64(i64::from(val))
    }

    pub fn as_i32(&self) -> i32
        ensures { result ≡ self.now.value }
    {
        self.value as i32
    }

    // The two's complement, cut to twenty bits.
    pub fn bits(&self) -> u32
        ensures is { result ≡ twos 20 self.now.value }
        ensures narrow { result < 2 ^ 20 }
    {
        cut(self.value, 20)
    }
}

// A number of WIDTH bits without a sign.
#[derive(Clone, Copy, PartialEq, Eq, Debug)]
pub struct Unsigned<const WIDTH: u32> {
    value: u32,
    ghost ok: { value < 2 ^ WIDTH },
}

// 0 to 31
pub type UImm5 = Unsigned<5>;

// 0 to 63
pub type Uimm6 = Unsigned<6>;

// 0 to 255
pub type Uimm8 = Unsigned<8>;

impl<const WIDTH: u32> TryFrom<u32> for Unsigned<WIDTH> {
    type Error = OutOfRange;

    ghost try_from_gives = { λ n r. MatchResult r (λ i. i.value ≡ n) (λ _. 2 ^ WIDTH ≤ n) };

    fn try_from(value: u32) -> Result<Unsigned<WIDTH>, OutOfRange> {
        if fits(WIDTH, value) {
            Ok(Unsigned { value })
        } else {
            Err(OutOfRange)
        }
    }
}

impl<const WIDTH: u32> From<Unsigned<WIDTH>> for u32 {
    ghost from_gives = { λ i n. n ≡ i.value };

    fn from(constant: Unsigned<WIDTH>) -> u32 {
        constant.value
    }
}

impl From<u8> for Uimm8 {
    ghost from_gives = { λ n i. i.value ≡ n };

    fn from(value: u8) -> Uimm8 {
        Unsigned {
            value: u32::from(value),
        }
    }
}

impl From<Uimm8> for u8 {
    ghost from_gives = { λ i n. n ≡ i.value };

    fn from(byte: Uimm8) -> u8 {
        byte.value as u8
    }
}

impl<const WIDTH: u32> Unsigned<WIDTH> {
    pub fn maybe_from_u8(value: u8) -> Option<Unsigned<WIDTH>>
        ensures { MatchOption result (2 ^ WIDTH ≤ value) (λ i. i.value ≡ value) }
    {
        Unsigned::try_from(u32::from(value)).ok()
    }

    // The number of the bits `value`.
    pub fn of_bits(value: u32) -> Unsigned<WIDTH>
        requires { value < 2 ^ WIDTH }
        ensures { result.value ≡ value }
    {
        Unsigned { value }
    }

    // The number that the bits write in two's complement.
    fn extend(self) -> i64
        ensures within { Within WIDTH result }
        ensures is { twos WIDTH result ≡ self.entry.value }
    {
        sign(u32::from(self), WIDTH)
    }

    // The even number that they write in two's complement, where its lowest bit is left out.
    pub(crate) fn double(self) -> i64
        ensures reach { Reach WIDTH result }
        ensures is { halved WIDTH result ≡ self.entry.value }
    {
        2 * sign(u32::from(self), WIDTH)
    }
}

impl UImm5 {
    pub fn bits(&self) -> u32
        ensures is { result ≡ self.now.value }
        ensures narrow { result < 2 ^ 5 }
    {
        u32::from(*self)
    }
}

impl Uimm6 {
    pub fn bits(&self) -> u8
        ensures is { result ≡ self.now.value }
        ensures narrow { result < 2 ^ 6 }
    {
        self.value as u8
    }
}

impl Uimm8 {
    pub fn new(value: u8) -> Uimm8
        ensures { result.value ≡ value }
    {
        Uimm8::from(value)
    }

    pub fn bits(&self) -> u8
        ensures is { result ≡ self.now.value }
        ensures narrow { result < 2 ^ 8 }
    {
        u8::from(*self)
    }
}
