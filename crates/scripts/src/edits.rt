// The slots and values of a change.
ghost use Rattle.std.specs.Prelude.{◌≡◌, ◌≤◌, ◌<◌, List, Some, None, take, length, MatchOption};
ghost use Rattle.changing.specs.declared.edits.Edit.{Edit};
ghost use Rattle.scripts.specs.Edits.{edit_at, edits_from, edits_of};

use crate::words::{count, number_at};
use changing::edits::Edit;
use std::marker::Model;

// The most that a line may name.
pub const MOST: usize = 64;

#[derive(Drop)]
pub struct Edits {
    list: [Edit; 64],
    len: usize,
}

// Clauses see the entries that are there.
impl Model for Edits {
    ghost Value = { List Edit };

    ghost view = { λ e. take e.len e.list };

    ghost invariant = { λ e. e.len ≤ 64 };
}

// Entry `k` of a change, from 0: its slot and value are the words behind the first and those of the entries before.
fn edit_at(line: &[u8], k: usize) -> Option<Edit>
    requires { k < 64 }
    ensures { result ≡ edit_at line.now k }
{
    Some(Edit {
        slot: number_at(line, 2 * k + 1)?,
        value: number_at(line, 2 * k + 2)?,
    })
}

// Fills a list with the first entries of a change; where one is not there, it stops.
fn fill(line: &[u8], list: &mut [Edit]) -> Option<()>
    requires { length list.old ≤ 64 }
    ensures all { MatchOption result (edits_from line.now 0 (length list.old) ≡ None) (λ _. edits_from line.now 0 (length list.old) ≡ Some list.new) }
    ensures size { length list.new ≡ length list.old }
{
    for k in 0..list.len() {
        list[k] = edit_at(line, k)?;
    }
    Some(())
}

impl Edits {
    // What a line's change names: none where a word is no number, where a slot has no value, or where there are more than 64.
    pub fn of(line: &[u8]) -> Option<Edits>
        ensures { result ≡ edits_of line.now }
    {
        let words = count(line);
        if words % 2 == 0 || words > 129 {
            return None;
        }
        let len = words / 2;
        let mut list = [Edit { slot: 0, value: 0 }; 64];
        fill(line, &mut list[..len])?;
        Some(Edits { list, len })
    }

    pub fn as_slice(&self) -> &[Edit]
        ensures { result.now ≡ self.now }
    {
        &self.list[..self.len]
    }
}
