// The numbers of a line.
ghost use Rattle.std.specs.Prelude.{◌≡◌, Ok, MatchResult};
ghost use Rattle.lines.specs.declared.faults.LineFault.TheVariants.{NoNumber};
ghost use Rattle.lines.specs.Lines.{number_at, there, numbers};

use crate::columns::Columns;
use crate::faults::LineFault;
use bits::part::Field;
use instructions::fields::Fields;
use text::fields::get;

// The number in field `k`.
fn number_of(line: &[u8], k: usize) -> Option<i64>
    ensures { result ≡ number_at line.now k }
{
    get(line, k)?.value()
}

// The number in field `k`, which is this field of the instruction.
fn number(line: &[u8], k: usize, field: Field) -> Result<i64, LineFault>
    ensures is { result ≡ there (NoNumber field) (number_at line.now k) Ok }
    ensures cases { MatchResult result (λ n. number_at line.now k ≡ Some n) (λ e. (number_at line.now k ≡ None) × (e ≡ NoNumber field)) }
{
    number_of(line, k).ok_or(LineFault::NoNumber(field))
}

// The five numbers of a line.
pub(crate) fn fields_of(columns: &Columns, line: &[u8]) -> Result<Fields, LineFault>
    ensures { result ≡ numbers columns.now line.now }
{
    Ok(Fields {
        d: number(line, columns.d, Field::D)?,
        a: number(line, columns.a, Field::A)?,
        b: number(line, columns.b, Field::B)?,
        n: number(line, columns.n, Field::N)?,
        m: number(line, columns.m, Field::M)?,
    })
}
