// Which numbers a width holds, and the bits that write them.
ghost use Rattle.std.specs.Prelude.{◌≡◌, ◌*◌, ◌^◌, ◌<◌, ◌↔◌, IsTrue};
ghost use Rattle.std.specs.Int.Signed.{mag};
ghost use Rattle.bits.specs.Twos.{twos};
ghost use Rattle.operands.specs.Ranges.{Within, Reach, halved};

use bits::signs::unsign;

// A number that the type cannot hold.
#[derive(Clone, Copy, PartialEq, Eq, Debug)]
pub struct OutOfRange;

// How far the number is from 0, or below 0 from -1.
fn magnitude(value: i64) -> u64
    ensures { result ≡ mag value }
{
    if value < 0 {
        value.unsigned_abs() - 1
    } else {
        value.unsigned_abs()
    }
}

// Whether `width` bits hold the number.
pub fn fits(width: u32, value: u32) -> bool
    ensures { IsTrue result ↔ (value < 2 ^ width) }
{
    width > 31 || value < 1 << width
}

// Whether `width` bits hold twice the number.
#[tactic(auto, using(crate::proofs::Widths::beyond))]
fn fits_twice(width: u32, n: u64) -> bool
    requires { n < 2 ^ 63 }
    ensures { IsTrue result ↔ (2 * n < 2 ^ width) }
{
    width > 63 || 2 * n < 1 << width
}

// Whether two's complement of `width` bits holds the number.
#[tactic(auto, using(crate::proofs::Widths::near_low, crate::proofs::Widths::near_high, crate::proofs::Widths::near))]
pub fn holds(width: u32, value: i64) -> bool
    ensures { IsTrue result ↔ Within width value }
{
    fits_twice(width, magnitude(value))
}

// Whether the number is even and its half is one of `width` bits.
pub(crate) fn reaches(width: u32, value: i64) -> bool
    ensures { IsTrue result ↔ Reach width value }
{
    value.unsigned_abs() % 2 == 0 && (width > 62 || magnitude(value) < 1 << width)
}

// The two's complement, cut to `width` bits.
#[tactic(auto, using(crate::proofs::Widths::near))]
pub(crate) fn cut(value: i64, width: u32) -> u32
    requires within { Within width value }
    requires narrow { width < 31 }
    ensures is { result ≡ twos width value }
    ensures narrow { result < 2 ^ width }
{
    unsign(value, width)
}

// The two's complement of an even number without its lowest bit: `width` bits.
#[tactic(auto, using(crate::proofs::Widths::reach_near, crate::proofs::Widths::halved_lt))]
pub(crate) fn halve(value: i64, width: u32) -> u32
    requires reach { Reach width value }
    requires narrow { width < 30 }
    ensures is { result ≡ halved width value }
    ensures narrow { result < 2 ^ width }
{
    unsign(value, width + 1) / 2
}
