// A constant's pair, in the terms of a listing.
ghost use Rattle.std.specs.Prelude.{◌≡◌, true, false, ℤ, MatchOption};
ghost use Rattle.operands.specs.Ranges.{made};
ghost use Rattle.items.specs.Pairs.{register_ok, makeable, pair, held_at};

use operands::generate;
use operands::imms::{Imm12, Imm20};
use pairs::held::held_in;
use pairs::pair::pair_of;
use pairs::register::PairRegister;

// The register of that number, 1 to 31.
#[tactic(auto, unfolding(crate::specs::Pairs::register_ok))]
pub fn register_of(d: i64) -> Option<PairRegister>
    ensures { MatchOption result (register_ok d ≡ false) (λ p. (register_ok d ≡ true) × (p.number ≡ d)) }
{
    PairRegister::new(d)
}

// The pair with 4096 * high + low the value: none where there is none.
pub fn generate_imm(value: i64) -> Option<(Imm20, Imm12)>
    ensures { MatchOption result (makeable value ≡ false) (λ p. (makeable value ≡ true) × (made p.0.value p.1.value ≡ value)) }
{
    generate::generate_imm(value)
}

// The halfwords of lui d, high and addi d, d, low.
pub fn pair_halves(register: PairRegister, high: Imm20, low: Imm12) -> [u16; 4]
    ensures { (v : ℤ) → made high.value low.value ≡ v → result ≡ pair register.number v }
{
    pair_of(register, high, low)
}

// The number that four halfwords hold, by their bits.
#[tactic(auto, unfolding(crate::specs::Pairs::held))]
pub fn held_by(halves: [u16; 4]) -> i64
    ensures { result ≡ held_at halves 0 }
{
    held_in(halves)
}
