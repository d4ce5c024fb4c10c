// An instruction's word.
ghost use Rattle.std.specs.Prelude.{◌≡◌, ◌%◌, ◌<◌, ◌≢◌, if◌then◌else◌, nat_eq};
ghost use Rattle.instructions.specs.Words.{the_word, halves, halfwords_in, listed};

use crate::build::known_form;
use crate::instruction::Instruction;
use crate::raws::raw_of;
use bits::halves::{has_second, split_halves};
use dispatch::word_for;

// A word's halfwords, the low one first.
#[derive(Clone, Copy)]
pub enum Halfwords {
    One(u16),
    Two(u16, u16),
}

impl Halfwords {
    // A word's halfwords: its low two bits tell how many it has. Of a word of one, the upper half is left out.
    pub fn of(word: u32) -> Halfwords
        ensures all { (word % 4 ≢ 3 → word < 65536) → listed result ≡ halves (if nat_eq (word % 4) 3 then 2 else 1) word }
        ensures lower { word % 4 ≢ 3 → listed result ≡ halves 1 (word % 65536) }
    {
        let (low, high) = split_halves(word);
        if has_second(low) {
            Halfwords::Two(low, high)
        } else {
            Halfwords::One(low)
        }
    }
}

// The word.
pub fn word_of(i: &Instruction) -> u32
    ensures { result ≡ the_word i.now }
{
    let form = known_form(i.op());
    let values = raw_of(&form, &i.fields());
    word_for(form.kind(), &values)
}

// The word, as it goes into a store.
pub fn halfwords_of(i: &Instruction) -> Halfwords
    ensures { listed result ≡ halfwords_in i.now }
{
    Halfwords::of(word_of(i))
}
