// Two's complement at a width, both ways.
ghost use Rattle.std.specs.Prelude.{◌≡◌, ◌+◌, ◌^◌, ◌<◌, ◌≤◌};
ghost use Rattle.std.specs.Int.Signed.{mag};
ghost use Rattle.bits.specs.Twos.{twos, signed};

// The two's complement of `value`, which fits `width` bits.
pub fn unsign(value: i64, width: u32) -> u32
    requires near { mag value + mag value < 2 ^ width }
    requires narrow { width < 32 }
    ensures { result ≡ twos width value }
{
    let magnitude = value.unsigned_abs() as u32;
    if value < 0 {
        (1 << width) - magnitude
    } else {
        magnitude
    }
}

// The number whose two's complement of `width` bits is `bits`.
// Stays: it asks that the bits fit, since the type that holds numbers of a width is a crate above.
pub fn sign(bits: u32, width: u32) -> i64
    requires { bits < 2 ^ width }
    ensures is { result ≡ signed width bits }
    ensures near { mag result ≤ bits }
{
    if width > 32 {
        return i64::from(bits);
    }
    let bits = u64::from(bits);
    let end = 1 << width;
    if bits + bits < end {
        bits as i64
    } else {
        -((end - bits) as i64)
    }
}
