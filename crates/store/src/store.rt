ghost use Rattle.std.specs.Prelude.{◌≡◌, ℕ, ◌-◌, ◌<◌, ◌≤◌, List, [], length, Ok, Err, OnOk, if◌then◌else◌, nat_lt, slice_index, slice_set};
ghost use Rattle.std.specs.List.{slice_get};
ghost use Rattle.store.specs.Answers.{fault_number, put_answer, span_answer, when};
ghost use Rattle.store.specs.Puts.{applied, puts};

/// Why a call on a store was refused.
#[derive(Clone, Copy, PartialEq, Eq, Debug)]
pub enum StoreFault {
    /// This place lies outside the store.
    Outside(usize),
}

impl StoreFault {
    /// The number of the refusal. Stays a number: callers are told it, as docs/REFUSALS.md lists it.
    pub fn number(&self) -> u8
        ensures { result ≡ fault_number self.now }
    {
        match self {
            StoreFault::Outside(_) => 14,
        }
    }
}

/// A list of halfwords of fixed length.
pub trait Store {
    // the list that the store means
    ghost halfwords: { Self → List ℕ };

    /// The length of the list.
    fn size(&self) -> usize
        ensures all { result ≡ length (halfwords self.now) }
        ensures bounded { result ≤ 32768 };

    /// The halfword at a place, none outside.
    fn get(&self, place: usize) -> Option<u16>
        ensures { result ≡ slice_get (halfwords self.now) place };

    /// Changes that place alone; refused outside, and only there.
    fn put(&mut self, place: usize, half: u16) -> Result<(), StoreFault>
        ensures answer { result ≡ put_answer (halfwords self.old) place }
        ensures after { halfwords self.new ≡ slice_set (halfwords self.old) place half };
}

/// The halfword at a place, 0 outside.
#[tactic(auto, using(crate::proofs::GetOr::get_or))]
pub fn half_at<S: Store>(store: &S, place: usize) -> u16
    ensures { result ≡ slice_index (S.halfwords store.now) place }
{
    store.get(place).unwrap_or(0)
}

/// Puts the halfwords of a list from a place up, in order. Where a place among them lies outside, nothing is put, and the first such place is named.
pub fn write<S: Store>(store: &mut S, place: usize, list: &[u16]) -> Result<(), StoreFault>
    ensures answer { result ≡ span_answer (length (S.halfwords store.old)) place (length list.now) }
    ensures after { S.halfwords store.new ≡ applied (when result (puts place list.now) []) (S.halfwords store.old) }
{
    fits(store.size(), place, list.len())?;
    put_all(store, place, list)
}

// Refuses a place outside a store of this size.
pub(crate) fn inside(place: usize, size: usize) -> Result<(), StoreFault>
    ensures is { result ≡ (if nat_lt place size then Ok tt else Err (StoreFault.Outside place)) }
    ensures lies { OnOk result (place < size) }
{
    if place < size {
        Ok(())
    } else {
        Err(StoreFault::Outside(place))
    }
}

// Refuses `count` halfwords from `place` up where they don't all lie in a store of this size.
fn fits(size: usize, place: usize, count: usize) -> Result<(), StoreFault>
    ensures { result ≡ span_answer size place count }
{
    if count <= size.saturating_sub(place) {
        Ok(())
    } else {
        Err(StoreFault::Outside(place.max(size)))
    }
}

// Puts a list that fits.
fn put_all<S: Store>(store: &mut S, place: usize, list: &[u16]) -> Result<(), StoreFault>
    requires room { length list.now ≤ length (S.halfwords store.old) - place }
    requires bounded { length (S.halfwords store.old) ≤ 32768 }
    ensures answer { result ≡ Ok tt }
    ensures after { S.halfwords store.new ≡ applied (puts place list.now) (S.halfwords store.old) }
{
    for (i, half) in list.iter().enumerate() {
        store.put(place + i, *half)?;
    }
    Ok(())
}
