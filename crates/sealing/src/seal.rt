// Seal: every jump at the distance to its label, or none.
ghost use Rattle.std.specs.Prelude.{◌≡◌, IfOk};
ghost use Rattle.store.specs.Answers.{when};
ghost use Rattle.records.specs.Records.{labels_in, jumps_in};
ghost use Rattle.sealing.specs.Sealing.{tested, settled_book, laid, EachAims};

use crate::aims::Aims;
use crate::faults::SealFault;
use records::book::{Book, first_of};
use records::counts::Counts;
use store::store::Store;

// Tests every jump, then writes each one's word at the distance to its label, and notes the distance.
#[tactic(auto, using(crate::proofs::Leading::all_aim))]
pub fn seal<S: Store>(counts: Counts, store: &mut S, book: &mut Book) -> Result<(), SealFault>
    ensures answer { result ≡ tested (S.halfwords store.old) counts.used (labels_in counts book.old) (jumps_in counts book.old) }
    ensures book { book.new ≡ when result (settled_book counts book.old) book.old }
    ensures after { S.halfwords store.new ≡ when result (laid (labels_in counts book.old) counts.used (jumps_in counts book.old) (S.halfwords store.old)) (S.halfwords store.old) }
    ensures aims { IfOk result (λ u. EachAims (labels_in counts book.old) counts.used (S.halfwords store.new) (jumps_in counts book.old)) }
{
    if store.size() < counts.used as usize {
        return Err(SealFault::Full);
    }
    let aims = Aims {
        labels: first_of(&book.labels, counts.labels),
        used: counts.used,
    };
    aims.test_jumps(store, first_of(&book.jumps, counts.jumps))?;
    aims.settle_jumps(store, &mut book.jumps, counts.jumps);
    Ok(())
}
