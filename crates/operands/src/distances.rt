// Distances of jumps, in bytes, each even.
ghost use Rattle.std.specs.Prelude.{◌≡◌, ◌^◌, ◌<◌, MatchOption, MatchResult};
ghost use Rattle.operands.specs.Ranges.{Reach, halved};

use crate::imms::Unsigned;
use crate::range::{OutOfRange, halve, reaches};

// An even number whose half has WIDTH bits in two's complement.
#[derive(Clone, Copy, PartialEq, Eq, Debug)]
pub struct Distance<const WIDTH: u32> {
    value: i64,
    ghost ok: { Reach WIDTH value },
}

// even, -4096 to 4094
pub type BDistance = Distance<12>;

// even, -1048576 to 1048574
pub type JDistance = Distance<20>;

// even, -2048 to 2046
pub type CjDistance = Distance<11>;

impl<const WIDTH: u32> TryFrom<i64> for Distance<WIDTH> {
    type Error = OutOfRange;

    ghost try_from_gives = { λ n r. MatchResult r (λ d. d.value ≡ n) (λ _. Reach WIDTH n → ⊥) };

    fn try_from(value: i64) -> Result<Distance<WIDTH>, OutOfRange> {
        if reaches(WIDTH, value) {
            Ok(Distance { value })
        } else {
            Err(OutOfRange)
        }
    }
}

// The distance whose bits, without the lowest, these are.
impl<const WIDTH: u32> From<Unsigned<WIDTH>> for Distance<WIDTH> {
    ghost from_gives = { λ b d. halved WIDTH d.value ≡ b.value };

    fn from(bits: Unsigned<WIDTH>) -> Distance<WIDTH> {
        Distance {
            value: bits.double(),
        }
    }
}

impl<const WIDTH: u32> From<Distance<WIDTH>> for i64 {
    ghost from_gives = { λ d n. n ≡ d.value };

    fn from(distance: Distance<WIDTH>) -> i64 {
        distance.value
    }
}

impl<const WIDTH: u32> Distance<WIDTH> {
    pub fn new(val: i64) -> Option<Distance<WIDTH>>
        ensures { MatchOption result (Reach WIDTH val → ⊥) (λ d. d.value ≡ val) }
    {
        Distance::try_from(val).ok()
    }

    pub fn value(&self) -> i64
        ensures { result ≡ self.now.value }
    {
        self.value
    }

    // The distance whose bits, without the lowest, these are.
    // Stays: it asks as Unsigned::of_bits does, for those who hold a plain field of a word and the fact that it fits.
    pub fn of_bits(bits: u32) -> Distance<WIDTH>
        requires { bits < 2 ^ WIDTH }
        ensures { halved WIDTH result.value ≡ bits }
    {
        Distance::from(Unsigned::of_bits(bits))
    }
}

// Stays: each distance has bits of its own; one body for every width would ask of callers that the width be small, as the bits of a wider
// number are no u32.
impl BDistance {
    // The two's complement without its lowest bit: twelve bits.
    pub fn bits(&self) -> u32
        ensures is { result ≡ halved 12 self.now.value }
        ensures narrow { result < 2 ^ 12 }
    {
        halve(self.value, 12)
    }
}

impl JDistance {
    // The two's complement without its lowest bit: twenty bits.
    pub fn bits(&self) -> u32
        ensures is { result ≡ halved 20 self.now.value }
        ensures narrow { result < 2 ^ 20 }
    {
        halve(self.value, 20)
    }
}

impl CjDistance {
    // The two's complement without its lowest bit: eleven bits.
    pub fn bits(&self) -> u32
        ensures is { result ≡ halved 11 self.now.value }
        ensures narrow { result < 2 ^ 11 }
    {
        halve(self.value, 11)
    }
}
