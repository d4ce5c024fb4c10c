// Bind: a label at the program's end.
ghost use Rattle.std.specs.Prelude.{◌≡◌};
ghost use Rattle.store.specs.Answers.{when};
ghost use Rattle.records.specs.Records.{labels_in, label_in, more_labels};
ghost use Rattle.calls.specs.Calls.{bound, label_number};

use crate::faults::BindFault;
use crate::labels::label_of;
use records::book::{Book, LabelRecord};
use records::counts::Counts;
use records::labels::place_of;

// Binds a label at the end of the halfwords used so far.
pub fn bind(counts: &mut Counts, book: &mut Book, label: i64) -> Result<(), BindFault>
    ensures answer { result ≡ bound counts.old.labels (labels_in counts.old book.old) label }
    ensures counts { counts.new ≡ when result (more_labels counts.old) counts.old }
    ensures book { book.new ≡ when result (label_in book.old counts.old.labels (label_number label) counts.old.used) book.old }
{
    let number = label_of(label)?;
    if place_of(book.labels(*counts), number).is_some() || counts.labels >= book.labels.len() {
        return Err(BindFault::Bound(label));
    }
    book.labels[counts.labels] = LabelRecord {
        label: number,
        place: counts.used,
    };
    counts.labels += 1;
    Ok(())
}
