// The interface of a format: operands, a size, a word, a reading; and its law.
ghost use Rattle.std.specs.Prelude.{◌≡◌, Some, None, Option, true};
ghost use Rattle.bits.specs.declared.part.Values.{Values};
ghost use Rattle.bits.specs.Layout.{word, sound, Fit};
ghost use Rattle.formats.specs.declared.kind.Kind.{Kind};
ghost use Rattle.formats.specs.declared.faults.WideCode.{WideCode};
ghost use Rattle.formats.specs.Layouts.{layout, size};
ghost use Rattle.formats.specs.Lawful.{outcome, Fits};

use crate::faults::WideCode;
use bits::layout::Layout;
use bits::part::Values;

pub trait Format {
    type Operands: Copy;

    // which layout its words have, and the fields that stand in them
    ghost kind: { Kind };

    ghost values: { Self.Operands → Values };

    // why operands are not lawful: none where they are
    ghost fault: { Self.Operands → Option WideCode };

    // the parts of its words
    fn layout() -> Layout<'static>
        ensures { result.parts.now ≡ layout kind };

    // whether the operands are lawful, and else why not
    fn check(o: &Self::Operands) -> Result<(), WideCode>
        ensures { result ≡ outcome (fault o.now) tt };

    // the fields of the operands, and back
    fn split(o: &Self::Operands) -> Values
        ensures { result ≡ values o.now };

    fn make(v: &Values) -> Self::Operands
        requires { Fits kind v.now }
        ensures { (fault result ≡ None) × (values result ≡ v.now) };

    // how many halfwords its words have
    fn halfwords() -> usize
        ensures { result ≡ size kind }
    {
        Self::layout().width() as usize / 16
    }

    // the word of the operands
    fn encode(o: &Self::Operands) -> Result<u32, WideCode>
        ensures { result ≡ outcome (fault o.now) (word (layout kind) (values o.now)) }
    {
        Self::check(o)?;
        Ok(Self::layout().join(&Self::split(o)))
    }

    // the reading of a word: a word reads as lawful operands exactly when it is their word
    #[tactic(auto, using(crate::proofs::Sound::layout_sound))]
    fn read(w: u32) -> Option<Self::Operands>
        ensures forth { (o : Self.Operands) → result ≡ Some o → (fault o ≡ None) × (word (layout kind) (values o) ≡ w) }
        ensures back { (o : Self.Operands) → fault o ≡ None → word (layout kind) (values o) ≡ w → result ≡ Some o }
    {
        let v = fields_in(&Self::layout(), w)?;
        Some(Self::make(&v))
    }

    ghost fits: { (o : Self.Operands) → fault o ≡ None → Fit (layout kind) (values o) };

    ghost known: { (o p : Self.Operands) → values o ≡ values p → o ≡ p };

    ghost held: { (v : Values) → Fit (layout kind) v → (o : Self.Operands) × ((fault o ≡ None) × (values o ≡ v)) };
}

// The fields whose word is `w`, by a layout in which each bit of a field stands once: none where no fields that fit have that word.
// Written out in each format's reading, whose layout is known.
#[inline(always)]
fn fields_in(layout: &Layout<'_>, w: u32) -> Option<Values>
    requires { sound layout.now.parts.now ≡ true }
    ensures forth { (v : Values) → result ≡ Some v → Fit layout.now.parts.now v × (word layout.now.parts.now v ≡ w) }
    ensures back { (v : Values) → Fit layout.now.parts.now v → word layout.now.parts.now v ≡ w → result ≡ Some v }
{
    let v = layout.picked(w);
    if layout.join(&v) != w {
        return None;
    }
    Some(v)
}
