// Where labels are bound.
ghost use Rattle.std.specs.Prelude.{◌≡◌, ◌==◌, map};
ghost use Rattle.std.specs.List.{find};
ghost use Rattle.records.specs.Records.{place_of, label_of};

use crate::book::LabelRecord;

// The first record of a label.
fn record_of(labels: &[LabelRecord], label: usize) -> Option<LabelRecord>
    ensures { result ≡ find (λ r. r.label == label) labels.now }
{
    labels.iter().copied().find(|entry| entry.label == label)
}

// Where a label is bound.
#[tactic(auto, using(crate::proofs::Rows::place_found, crate::proofs::Rows::place_missing))]
pub fn place_of(labels: &[LabelRecord], label: usize) -> Option<u32>
    ensures { result ≡ place_of (map label_of labels.now) label }
{
    let entry = record_of(labels, label)?;
    Some(entry.place)
}
