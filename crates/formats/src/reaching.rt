// Formats that have a distance in them.
ghost use Rattle.std.specs.Prelude.{◌≡◌, ℕ, ◌-◌, ◌^◌, ◌<◌, pos, negsuc, Some, None, MatchOption};
ghost use Rattle.bits.specs.Layout.{word};
ghost use Rattle.operands.specs.Ranges.{Reach, halved};
ghost use Rattle.operands.specs.declared.distances.Distance.{Distance};
ghost use Rattle.formats.specs.Layouts.{layout};
ghost use Rattle.formats.specs.Reaching.{with_n};

use crate::format::Format;
use operands::distances::Distance;

// Formats whose operands have an even distance, with WIDTH bits for its half.
pub trait Reaching<const WIDTH: u32>: Format {
    ghost distance: { Self.Operands → Distance WIDTH };

    // the half has from 1 to 31 bits
    ghost wide: { 0 < WIDTH };

    ghost small: { WIDTH < 32 };

    fn least_distance() -> i64
        ensures { result ≡ negsuc (2 ^ WIDTH - 1) }
    {
        -(1 << WIDTH)
    }

    fn greatest_distance() -> i64
        ensures { result ≡ pos (2 ^ WIDTH - 2) }
    {
        greatest_even::<WIDTH>()
    }

    fn distance(o: &Self::Operands) -> Distance<WIDTH>
        ensures { result ≡ distance o.now };

    // the same operands at another distance
    fn at_distance(o: &Self::Operands, d: &Distance<WIDTH>) -> Self::Operands
        ensures { (Self.Format.values result ≡ with_n (Self.Format.values o.now) (halved WIDTH d.now.value)) × (distance result ≡ d.now) };

    fn distance_of(o: &Self::Operands) -> i64
        ensures { result ≡ (distance o.now).value }
    {
        Self::distance(o).value()
    }

    // the same operands at the distance `d`
    fn aimed(o: &Self::Operands, d: i64) -> Option<Self::Operands>
        ensures { MatchOption result (Reach WIDTH d → ⊥) (λ p. (Self.Format.values p ≡ with_n (Self.Format.values o.now) (halved WIDTH d)) × ((distance p).value ≡ d)) }
    {
        let d = Distance::new(d)?;
        Some(Self::at_distance(o, &d))
    }

    ghost told: { (o : Self.Operands) → (Self.Format.values o).n ≡ halved WIDTH (distance o).value };

    ghost kept: { (o p : Self.Operands) (x : ℕ) → Self.Format.fault o ≡ None → Self.Format.values p ≡ with_n (Self.Format.values o) x → Self.Format.fault p ≡ None };
}

// The greatest even number whose half has `WIDTH` bits in two's complement.
#[tactic(auto, using(crate::proofs::Powers::less_two))]
fn greatest_even<const WIDTH: u32>() -> i64
    requires some { 0 < WIDTH }
    requires small { WIDTH < 32 }
    ensures { result ≡ pos (2 ^ WIDTH - 2) }
{
    (1 << WIDTH) - 2
}

// The word of lawful operands at the distance `d`.
fn word_at<const WIDTH: u32, F: Reaching<WIDTH>>(o: &F::Operands, d: i64) -> Option<u32>
    requires { F.Format.fault o.now ≡ None }
    ensures { MatchOption result (Reach WIDTH d → ⊥) (λ x. Reach WIDTH d × (x ≡ word (layout F.Format.kind) (with_n (F.Format.values o.now) (halved WIDTH d)))) }
{
    let p = F::aimed(o, d)?;
    F::encode(&p).ok()
}

// The word `w` at the distance `d`: none where `w` is no word of the format, or `d` is odd or out of reach.
pub fn retarget<const WIDTH: u32, F: Reaching<WIDTH>>(w: u32, d: i64) -> Option<u32>
    ensures taken { (o : F.Operands) → F.Format.fault o ≡ None → word (layout F.Format.kind) (F.Format.values o) ≡ w → Reach WIDTH d → result ≡ Some (word (layout F.Format.kind) (with_n (F.Format.values o) (halved WIDTH d))) }
    ensures refused { (x : ℕ) → result ≡ Some x → Reach WIDTH d × ((o : F.Operands) × ((F.Format.fault o ≡ None) × (word (layout F.Format.kind) (F.Format.values o) ≡ w))) }
{
    let o = F::read(w)?;
    word_at::<WIDTH, F>(&o, d)
}
