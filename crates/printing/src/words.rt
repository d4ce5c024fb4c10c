// The words of a program as text.
ghost use Rattle.std.specs.Prelude.{◌≡◌, ◌+◌, ◌*◌, ◌<◌, ◌≤◌, ◌++◌, length, take, drop};
ghost use Rattle.std.specs.Iterator.{YieldsFirst, item_count};
ghost use Rattle.printing.specs.Printed.{printed, words_text};
ghost use Rattle.printing.specs.Words.{word_at, words_from, row_of};

use bits::halves::{has_second, join_halves};
use store::store::{Store, half_at};
use text::words::Word;
use text::writing::Text;

// The words that stand in the first `used` halfwords of a store, from a place on, each behind its
// byte address.
#[derive(Drop)]
struct Words<'a, S: Store> {
    store: &'a S,
    used: usize,
    place: usize,
    ghost few: { used ≤ 256 },
    ghost stored: { used ≤ length (S.halfwords store.now) },
}

impl<S: Store> Words<'_, S> {
    // The word at a place.
    #[tactic(auto, using(crate::proofs::Printed::short_half, crate::proofs::Printed::last_half, crate::proofs::Printed::two_halves))]
    fn word_at(&self, place: usize) -> Word
        requires { place < self.now.used }
        ensures { result ≡ word_at (take self.now.used (S.halfwords self.now.store.now)) place }
    {
        let low = half_at(self.store, place);
        if !has_second(low) || self.used == place + 1 {
            return Word::Short(low);
        }
        let high = half_at(self.store, place + 1);
        Word::Wide(join_halves(low, high))
    }
}

impl<S: Store> Iterator for Words<'_, S> {
    type Item = (u32, Word);

    ghost next_gives = { YieldsFirst (λ w. words_from w.place (drop w.place (take w.used (S.Store.halfwords w.store.now)))) };

    ghost remaining = { item_count (λ w. words_from w.place (drop w.place (take w.used (S.Store.halfwords w.store.now)))) };

    fn next(&mut self) -> Option<(u32, Word)> {
        let place = self.place;
        if place >= self.used {
            return None;
        }
        let word = self.word_at(place);
        self.place += word.halves();
        Some((address(place), word))
    }
}

// The byte address of a place.
fn address(place: usize) -> u32
    requires { place < 256 }
    ensures { result ≡ 2 * place }
{
    2 * place as u32
}

// Writes the line of a word.
fn write_row(text: &mut Text<4096>, address: u32, word: Word)
    requires { length text.old + length (row_of address word) ≤ 4096 }
    ensures { text.new ≡ text.old ++ row_of address word }
{
    text.write_decimal(address);
    text.write_bytes(b",");
    text.write_word(word);
    text.write_bytes(b"\n");
}

// Writes the lines of the words.
fn write_rows<S: Store>(text: &mut Text<4096>, words: Words<'_, S>)
    requires { length text.old + length (printed words.place (drop words.place (take words.used (S.halfwords words.store.now)))) ≤ 4096 }
    ensures { text.new ≡ text.old ++ printed words.entry.place (drop words.entry.place (take words.entry.used (S.halfwords words.entry.store.now))) }
{
    for (address, word) in words {
        write_row(text, address, word);
    }
}

// The text of the words that stand in the first `used` halfwords of a store.
#[tactic(auto, using(crate::proofs::Printed::rows_short))]
pub fn print_words<S: Store>(store: &S, used: usize) -> Text<4096>
    requires few { used ≤ 256 }
    requires stored { used ≤ length (S.halfwords store.now) }
    ensures { result ≡ words_text (take used (S.halfwords store.now)) }
{
    let mut text = Text::new();
    text.write_bytes(b"at,word\n");
    write_rows(
        &mut text,
        Words {
            store,
            used,
            place: 0,
        },
    );
    text
}
