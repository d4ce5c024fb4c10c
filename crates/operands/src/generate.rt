// A number as an upper and a lower immediate.
ghost use Rattle.std.specs.Prelude.{◌≡◌, Some, MatchOption};
ghost use Rattle.operands.specs.Ranges.{Makeable, made};
ghost use Rattle.operands.specs.declared.imms.Signed.{Signed};

use crate::imms::{Imm12, Imm20};

// The pair with 4096 * high + low the value.
fn pair_of(value: i64) -> (Imm20, Imm12)
    requires { Makeable value }
    ensures { made result.0.value result.1.value ≡ value }
{
    let above = (value + 2147485696) as u64;
    let high = (above / 4096) as i64 - 524288;
    let low = (above % 4096) as i64 - 2048;
    (Imm20 { value: high }, Imm12 { value: low })
}

// The one pair with 4096 * high + low the value: none where there is none.
pub fn generate_imm(value: i64) -> Option<(Imm20, Imm12)>
    ensures is { MatchOption result (Makeable value → ⊥) (λ p. made p.0.value p.1.value ≡ value) }
    ensures only { (h : Signed 20) (l : Signed 12) → made h.value l.value ≡ value → result ≡ Some (h, l) }
{
    if !(-2147485696..=2147481599).contains(&value) {
        return None;
    }
    Some(pair_of(value))
}
