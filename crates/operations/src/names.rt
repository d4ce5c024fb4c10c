// Operations by name.
ghost use Rattle.std.specs.Prelude.{◌≡◌, ◌<◌, length, IfSome};
ghost use Rattle.std.specs.List.{position_from};
ghost use Rattle.std.specs.Str.{bytes_eq};
ghost use Rattle.operations.specs.Manual.{operations, count};
ghost use Rattle.operations.specs.Names.{named, placed, NamesApart};

use crate::operation::Operation;
use crate::row::Row;
use crate::table::table;

// The place of the first row of that name.
fn place_in(rows: &[Row], name: &[u8]) -> Option<usize>
    ensures place { result ≡ position_from (λ r. bytes_eq r.name.now name.now) 0 rows.now }
    ensures real { IfSome result (λ k. k < length rows.now) }
{
    rows.iter().position(|row| row.name.as_bytes() == name)
}

// The place of the first operation of that name.
fn place_of(name: &[u8]) -> Option<usize>
    ensures place { result ≡ named operations name.now }
    ensures real { IfSome result (λ k. k < count) }
{
    place_in(table(), name)
}

// The operation of that name.
pub fn by_name(name: &[u8]) -> Option<Operation>
    ensures { placed result ≡ named operations name.now }
{
    let place = place_of(name)?;
    Some(Operation { place })
}

// No two operations have one name.
pub fn names_stand()
    ensures { NamesApart }
{}
