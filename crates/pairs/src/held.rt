// The number that four halfwords hold.
ghost use Rattle.std.specs.Prelude.{◌≡◌};
ghost use Rattle.pairs.specs.Pairs.{held_at};

use bits::fields::cut;
use bits::halves::join_halves;
use bits::signs::sign;

// 4096 * high + low: high in the upper 20 bits of the first word, low in the upper 12 bits of the second.
pub fn held_in(halves: [u16; 4]) -> i64
    ensures { result ≡ held_at halves 0 }
{
    let [a, b, c, e] = halves;
    let high = sign(cut(join_halves(a, b), 12, 20), 20);
    let low = sign(cut(join_halves(c, e), 20, 12), 12);
    4096 * high + low
}
