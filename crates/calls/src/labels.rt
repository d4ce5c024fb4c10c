// Labels by number.
ghost use Rattle.std.specs.Prelude.{◌≡◌};
ghost use Rattle.calls.specs.Calls.{known};

use crate::faults::NoLabel;

// The label of that number, 0 to 63.
pub fn label_of(label: i64) -> Result<usize, NoLabel>
    ensures { result ≡ known label }
{
    match usize::try_from(label) {
        Ok(number) if number < 64 => Ok(number),
        _ => Err(NoLabel(label)),
    }
}
