// One field in a word.
// Stays: both ask of one call what no value keeps, the place and the width together.
ghost use Rattle.std.specs.Prelude.{◌≡◌, ◌+◌, ◌*◌, ◌/◌, ◌%◌, ◌^◌, ◌<◌, ◌≤◌};

// The `width` bits of `word` from `at` up.
#[tactic(auto, using(crate::proofs::Shifts::low_bits))]
pub fn cut(word: u32, at: u32, width: u32) -> u32
    requires inside { at < 32 }
    requires narrow { width < 32 }
    ensures { result ≡ word / 2 ^ at % 2 ^ width }
{
    (word >> at) & ((1 << width) - 1)
}

// `value` in the `width` bits from `at` up, of a word that has nothing there or above.
#[tactic(auto, using(crate::proofs::Shifts::above))]
pub fn put(word: u32, value: u32, at: u32, width: u32) -> u32
    requires below { word < 2 ^ at }
    requires narrow { value < 2 ^ width }
    requires inside { at < 32 }
    requires within { at + width ≤ 32 }
    ensures { result ≡ value * 2 ^ at + word }
{
    word | (value << at)
}
