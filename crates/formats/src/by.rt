// Words and fields by any format.
ghost use Rattle.std.specs.Prelude.{◌≡◌, MatchOption, ◌≢◌};
ghost use Rattle.bits.specs.declared.part.Values.{Values};
ghost use Rattle.bits.specs.Layout.{word, Fit};
ghost use Rattle.formats.specs.Layouts.{layout};

use crate::format::Format;
use bits::part::Values;

// The word of fields that fit the format.
pub fn word_by<F: Format>(v: &Values) -> u32
    requires { Fit (layout F.kind) v.now }
    ensures { result ≡ word (layout F.kind) v.now }
{
    let o = F::make(v);
    F::encode(&o).unwrap()
}

// The fields of a word of the format: none where no fields that fit have that word.
pub fn values_by<F: Format>(w: u32) -> Option<Values>
    ensures { MatchOption result ((v : Values) → Fit (layout F.kind) v → word (layout F.kind) v ≢ w) (λ v. Fit (layout F.kind) v × (word (layout F.kind) v ≡ w)) }
{
    let o = F::read(w)?;
    Some(F::split(&o))
}
