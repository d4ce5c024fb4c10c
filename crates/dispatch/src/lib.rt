//! From a kind to its format.
#![tactic(auto)]

ghost use Rattle.std.specs.Prelude.{◌≡◌, MatchOption, ◌≢◌};
ghost use Rattle.bits.specs.declared.part.Values.{Values};
ghost use Rattle.bits.specs.Layout.{word, Fit};
ghost use Rattle.formats.specs.Layouts.{layout};

use bits::layout::Layout;
use bits::part::Values;
use formats::by::{values_by, word_by};
use formats::format::Format;
use formats::kind::Kind;

// `$run` at the format of the kind.
macro_rules! by_format {
    ($kind:expr, $run:ident $(, $from:expr)?) => {
        match $kind {
            Kind::R => $run::<wide::r::R>($($from)?),
            Kind::I => $run::<wide::i::I>($($from)?),
            Kind::S => $run::<wide::s::S>($($from)?),
            Kind::U => $run::<wide::u::U>($($from)?),
            Kind::B => $run::<jumps::b::B>($($from)?),
            Kind::J => $run::<jumps::j::J>($($from)?),
            Kind::V => $run::<vectors::v::V>($($from)?),
            Kind::VImm => $run::<vectors::v_imm::VImm>($($from)?),
            Kind::VMem => $run::<vectors::v_mem::VMem>($($from)?),
            Kind::Cr => $run::<short::cr::Cr>($($from)?),
            Kind::Cr2 => $run::<short::cr2::Cr2>($($from)?),
            Kind::CrBare => $run::<short::cr_bare::CrBare>($($from)?),
            Kind::Ca => $run::<short::ca::Ca>($($from)?),
            Kind::Cj => $run::<jumps::cj::Cj>($($from)?),
            Kind::Ci => $run::<short::ci::Ci>($($from)?),
            Kind::CiLwsp => $run::<stack::ci_load::CiLwsp>($($from)?),
            Kind::CiLdsp => $run::<stack::ci_load::CiLdsp>($($from)?),
            Kind::CiAddi16sp => $run::<stack::ci_addi16sp::CiAddi16sp>($($from)?),
            Kind::Ciw => $run::<short::ciw::Ciw>($($from)?),
            Kind::Cb => $run::<short::cb::Cb>($($from)?),
            Kind::CssWord => $run::<stack::css::CssWord>($($from)?),
            Kind::CssDouble => $run::<stack::css::CssDouble>($($from)?),
            Kind::CsWord => $run::<memory::cs::CsWord>($($from)?),
            Kind::CsDouble => $run::<memory::cs::CsDouble>($($from)?),
            Kind::ClWord => $run::<memory::cl::ClWord>($($from)?),
            Kind::ClDouble => $run::<memory::cl::ClDouble>($($from)?),
        }
    };
}

fn layout_by<F: Format>() -> Layout<'static>
    ensures { result.parts.now ≡ layout F.kind }
{
    F::layout()
}

// The layout of the kind.
pub fn layout_of(kind: Kind) -> Layout<'static>
    ensures { result.parts.now ≡ layout kind }
{
    by_format!(kind, layout_by)
}

// The word of fields that fit the kind.
pub fn word_for(kind: Kind, v: &Values) -> u32
    requires { Fit (layout kind) v.now }
    ensures { result ≡ word (layout kind) v.now }
{
    by_format!(kind, word_by, v)
}

// The fields of a word of the kind: none where no fields that fit have that word.
pub fn values_for(kind: Kind, w: u32) -> Option<Values>
    ensures { MatchOption result ((v : Values) → Fit (layout kind) v → word (layout kind) v ≢ w) (λ v. Fit (layout kind) v × (word (layout kind) v ≡ w)) }
{
    by_format!(kind, values_by, w)
}
