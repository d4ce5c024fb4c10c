// The book of a program: its labels, jumps and slots, each kind in the order in which they came. How many of them count is told by `Counts`.
ghost use Rattle.std.specs.Prelude.{◌≡◌, ◌+◌, nat_le, take};
ghost use Rattle.records.specs.Records.{blank};

use crate::counts::Counts;

// A label and the place where it is bound.
#[derive(Clone, Copy, Default)]
pub struct LabelRecord {
    pub label: usize,
    pub place: u32,
}

// A jump's place and label and, once the program is sealed, its distance in bytes.
#[derive(Clone, Copy, Default)]
pub struct JumpRecord {
    pub place: u32,
    pub label: usize,
    pub distance: i64,
}

// A slot: the place of a constant's pair of instructions, and the register that they load.
#[derive(Clone, Copy, Default)]
pub struct SlotRecord {
    pub place: u32,
    pub register: i64,
}

impl SlotRecord {
    // Whether the four halfwords of its pair lie inside the used ones.
    pub fn fits(&self, used: u32) -> bool
        ensures { result ≡ nat_le (self.now.place + 4) used }
    {
        self.place <= used && used - self.place >= 4
    }
}

// Stays: rows of fixed length, of which `Counts` tells how much counts, since a program's memory is fixed and its book is plain.
#[derive(Drop)]
pub struct Book {
    pub labels: [LabelRecord; 64],
    pub jumps: [JumpRecord; 128],
    pub slots: [SlotRecord; 32],
}

impl Book {
    // A book with nothing in it that counts.
    pub fn new() -> Book
        ensures { result ≡ blank }
    {
        Book {
            labels: [LabelRecord::default(); 64],
            jumps: [JumpRecord::default(); 128],
            slots: [SlotRecord::default(); 32],
        }
    }

    // The labels that count.
    pub fn labels(&self, counts: Counts) -> &[LabelRecord]
        ensures { result.now ≡ take counts.labels self.now.labels }
    {
        first_of(&self.labels, counts.labels)
    }

    // The jumps that count.
    pub fn jumps(&self, counts: Counts) -> &[JumpRecord]
        ensures { result.now ≡ take counts.jumps self.now.jumps }
    {
        first_of(&self.jumps, counts.jumps)
    }

    // The slots that count.
    pub fn slots(&self, counts: Counts) -> &[SlotRecord]
        ensures { result.now ≡ take counts.slots self.now.slots }
    {
        first_of(&self.slots, counts.slots)
    }
}

// The first `count` records of a row, or all of them where there are fewer.
pub fn first_of<T>(row: &[T], count: usize) -> &[T]
    ensures { result.now ≡ take count row.now }
{
    row.get(..count).unwrap_or(row)
}
