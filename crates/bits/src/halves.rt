// A word of halfwords.
ghost use Rattle.std.specs.Prelude.{◌≡◌, ◌+◌, ◌*◌, ◌/◌, ◌%◌, nat_eq};

// Two halfwords as one word, the low one first.
pub fn join_halves(low: u16, high: u16) -> u32
    ensures { result ≡ high * 65536 + low }
{
    u32::from(high) * 65536 + u32::from(low)
}

// A word's two halfwords, the low one first.
pub fn split_halves(word: u32) -> (u16, u16)
    ensures low { result.0 ≡ word % 65536 }
    ensures high { result.1 ≡ word / 65536 }
{
    ((word & 0xffff) as u16, (word >> 16) as u16)
}

// Whether a word that begins with this halfword has a second: its low two bits are both 1.
pub fn has_second(low: u16) -> bool
    ensures { result ≡ nat_eq (low % 4) 3 }
{
    low % 4 == 3
}
