// What comes of reading a word.
ghost use Rattle.sweep.specs.Outcomes.{Comes};

use instructions::word::word_of;
use reading::word::read_word;

#[derive(Clone, Copy)]
pub enum Outcome {
    // it is no instruction's
    Unread,
    // it is that of the instruction that it reads as
    Itself,
    // it is not
    Other,
}

// Reads a word, and writes the instruction again.
pub(crate) fn read_and_write(word: u32) -> Outcome
    ensures { Comes word result }
{
    let Some(i) = read_word(word) else {
        return Outcome::Unread;
    };
    if word_of(&i) == word {
        Outcome::Itself
    } else {
        Outcome::Other
    }
}
