//! Words of any format in a buffer of halfwords.
#![tactic(auto)]

ghost use Rattle.std.specs.Prelude.{◌≡◌, ◌+◌, ◌*◌, ◌^◌, ◌<◌, ◌≤◌, true, length, Some, None};
ghost use Rattle.bits.specs.Layout.{word};
ghost use Rattle.formats.specs.Layouts.{layout, size};
ghost use Rattle.formats.specs.Lawful.{outcome};
ghost use Rattle.buffers.specs.Halfwords.{word_at, word_if, placed, room, write_fault, after};
ghost use Rattle.buffers.specs.declared.WriteFault.TheVariants.{Code as Code-fault};

use bits::halves::{join_halves, split_halves};
use formats::faults::WideCode;
use formats::format::Format;

// Why a word is not written.
#[derive(Clone, Copy, PartialEq, Eq, Debug)]
pub enum WriteFault {
    Code(WideCode),
    Room,
}

impl From<WideCode> for WriteFault {
    ghost from_gives = { λ e f. f ≡ Code-fault e };

    fn from(e: WideCode) -> WriteFault {
        WriteFault::Code(e)
    }
}

// The word of the format at `at`, where it has room.
fn word_at<F: Format>(halfwords: &[u16], at: usize) -> Option<u32>
    ensures { result ≡ word_if (room (size F.kind) halfwords.now at) (word_at (size F.kind) halfwords.now at) }
{
    match halfwords.get(at..)? {
        [low, high, ..] if F::halfwords() == 2 => Some(join_halves(*low, *high)),
        [low, ..] if F::halfwords() == 1 => Some(u32::from(*low)),
        _ => None,
    }
}

// Puts the word `w` of the format at `at`.
// Stays: by indices; as a slice's pattern and as `copy_from_slice` it was tried, and the proof that the slice lent leaves `placed` did not close by itself.
fn place<F: Format>(halfwords: &mut [u16], at: usize, w: u32)
    requires { at + size F.kind ≤ length halfwords.old }
    ensures { halfwords.new ≡ placed (size F.kind) halfwords.old at w }
{
    let (low, high) = split_halves(w);
    halfwords[at] = low;
    if F::halfwords() == 2 {
        halfwords[at + 1] = high;
    }
}

// Writes the word of the operands at `at`.
pub fn write<F: Format>(halfwords: &mut [u16], at: usize, o: &F::Operands) -> Result<(), WriteFault>
    ensures answer { result ≡ outcome (write_fault (F.fault o.now) (room (size F.kind) halfwords.old at)) tt }
    ensures left { halfwords.new ≡ after (write_fault (F.fault o.now) (room (size F.kind) halfwords.old at)) (placed (size F.kind) halfwords.old at (word (layout F.kind) (F.values o.now))) halfwords.old }
{
    let w = F::encode(o)?;
    if F::halfwords() > halfwords.len().saturating_sub(at) {
        return Err(WriteFault::Room);
    }
    place::<F>(halfwords, at, w);
    Ok(())
}

// The operands at `at`: those whose word stands there.
pub fn read_at<F: Format>(halfwords: &[u16], at: usize) -> Option<F::Operands>
    ensures forth { (o : F.Operands) → result ≡ Some o → (F.fault o ≡ None) × (at + size F.kind ≤ length halfwords.now) × (word (layout F.kind) (F.values o) ≡ word_at (size F.kind) halfwords.now at) }
    ensures back { (o : F.Operands) → F.fault o ≡ None → at + size F.kind ≤ length halfwords.now → word (layout F.kind) (F.values o) ≡ word_at (size F.kind) halfwords.now at → result ≡ Some o }
{
    F::read(word_at::<F>(halfwords, at)?)
}

// What is written is read again.
pub fn echo<F: Format>(
    halfwords: &mut [u16],
    at: usize,
    o: &F::Operands,
) -> Result<Option<F::Operands>, WriteFault>
    ensures { result ≡ outcome (write_fault (F.fault o.now) (room (size F.kind) halfwords.old at)) (Some o.now) }
{
    write::<F>(halfwords, at, o)?;
    Ok(read_at::<F>(halfwords, at))
}
