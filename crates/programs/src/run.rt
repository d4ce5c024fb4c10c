// Whole lives of programs.
ghost use Rattle.std.specs.Prelude.{◌≡◌, ℕ, ◌≤◌, List, [], map, take, length, IfSome, MatchOption};
ghost use Rattle.lives.specs.Life.{Lived, RunsDetermine, call_of};
ghost use Rattle.lives.specs.Tied.{OpenLife, TryLife, SealedLife};

use crate::answers::tell;
use crate::open::Open;
use crate::sealed::Sealed;
use crate::trying::Try;
use lives::types::{Answer, Call, Entry, Fault};
use records::book::{Book, JumpRecord, LabelRecord, SlotRecord};
use store::store::Store;

// The calls on a sealed program, from an entry on.
#[tactic(auto, using(crate::proofs::Turns::sealed_turn, crate::proofs::Turns::sealed_ends, crate::proofs::Turns::calls_kept))]
fn run_sealed<S: Store>(
    sealed: &Sealed,
    store: &mut S,
    book: &Book,
    entries: &mut [Entry],
    from: usize,
) -> usize
    requires { from ≤ length entries.old }
    ensures calls { map call_of entries.new ≡ map call_of entries.old }
    ensures lived { (first : List ℕ) → SealedLife first (take from entries.old) sealed.now.counts book.now (S.halfwords store.old) → Lived first entries.new book.now (S.halfwords store.new) result }
{
    for k in from..entries.len() {
        let answer = sealed.answer(store, book, &entries[k].call);
        entries[k].answer = answer;
    }
    sealed.used()
}

// The calls inside a try, from an entry on: the entry after the one that kept it or gave it up, none where the list ended first.
#[tactic(auto, using(crate::proofs::Turns::try_turn, crate::proofs::Turns::try_out_turn, crate::proofs::Turns::keep_turn, crate::proofs::Turns::give_up_turn, crate::proofs::Turns::try_ends, crate::proofs::Turns::calls_kept))]
fn run_try<S: Store>(
    program: &mut Open,
    store: &mut S,
    book: &mut Book,
    entries: &mut [Entry],
    from: usize,
) -> Option<usize>
    requires { from ≤ length entries.old }
    ensures calls { map call_of entries.new ≡ map call_of entries.old }
    ensures on { IfSome result (λ k. (from ≤ k) × (k ≤ length entries.old)) }
    ensures lived { (first : List ℕ) → TryLife first (take from entries.old) program.old.counts program.old.counts book.old (S.halfwords store.old) →
        MatchOption result (Lived first entries.new book.new (S.halfwords store.new) program.new.counts.used) (λ k. OpenLife first (take k entries.new) program.new.counts book.new (S.halfwords store.new)) }
{
    let mut t = Try::new(&mut program.counts);
    let mut k = from;
    while k < entries.len() {
        let call = entries[k].call;
        match call {
            Call::Do(deed) => {
                let done = t.carry(store, book, &deed);
                entries[k].answer = tell(done);
            }
            Call::Try | Call::Seal | Call::Change(_) | Call::Value(_) => {
                entries[k].answer = Answer::OutOfState;
            }
            Call::Keep => {
                entries[k].answer = Answer::Taken;
                t.keep();
                return Some(k + 1);
            }
            Call::GiveUp => {
                entries[k].answer = Answer::Taken;
                return Some(k + 1);
            }
        }
        k += 1;
    }
    None
}

// The calls on an open program, all of a list.
#[tactic(auto, using(crate::proofs::Turns::deed_turn, crate::proofs::Turns::out_turn, crate::proofs::Turns::tries_turn, crate::proofs::Turns::seal_turn, crate::proofs::Turns::seal_refused_turn, crate::proofs::Turns::open_ends, crate::proofs::Turns::calls_kept))]
fn run_open<S: Store>(
    mut program: Open,
    store: &mut S,
    book: &mut Book,
    entries: &mut [Entry],
) -> usize
    ensures calls { map call_of entries.new ≡ map call_of entries.old }
    ensures lived { (first : List ℕ) → OpenLife first [] program.counts book.old (S.halfwords store.old) → Lived first entries.new book.new (S.halfwords store.new) result }
{
    let mut k = 0;
    while k < entries.len() {
        let call = entries[k].call;
        match call {
            Call::Do(deed) => {
                let verdict = program.carry(store, book, &deed);
                entries[k].answer = tell(verdict);
                k += 1;
            }
            Call::Try => {
                entries[k].answer = Answer::Taken;
                match run_try(&mut program, store, book, entries, k + 1) {
                    Some(next) => k = next,
                    None => return program.counts.used as usize,
                }
            }
            Call::Keep | Call::GiveUp | Call::Change(_) | Call::Value(_) => {
                entries[k].answer = Answer::OutOfState;
                k += 1;
            }
            Call::Seal => match program.seal(store, book) {
                Ok(sealed) => {
                    entries[k].answer = Answer::Taken;
                    return run_sealed(&sealed, store, book, entries, k + 1);
                }
                Err((open, fault)) => {
                    program = open;
                    entries[k].answer = Answer::Refused(Fault::Seal(fault));
                    k += 1;
                }
            },
        }
    }
    program.used()
}

// A book has room for 64 labels, 128 jumps and 32 slots.
fn has_rooms(book: &Book)
    ensures labels { length book.now.labels ≡ 64 }
    ensures jumps { length book.now.jumps ≡ 128 }
    ensures slots { length book.now.slots ≡ 32 }
{
    let labels: &[LabelRecord] = &book.labels;
    let jumps: &[JumpRecord] = &book.jumps;
    let slots: &[SlotRecord] = &book.slots;
    let _rooms = (labels.len(), jumps.len(), slots.len());
}

// A whole life: each call in order, with its answer, and how many halfwords are used at its end. A list that ends inside a try ends by giving it up.
#[tactic(auto, using(crate::proofs::Turns::begins, crate::proofs::Turns::determines))]
pub fn live<S: Store>(store: &mut S, book: &mut Book, entries: &mut [Entry]) -> usize
    ensures calls { map call_of entries.new ≡ map call_of entries.old }
    ensures lived { Lived (S.halfwords store.old) entries.new book.new (S.halfwords store.new) result }
    ensures determined { RunsDetermine }
{
    has_rooms(book);
    run_open(Open::new(), store, book, entries)
}
