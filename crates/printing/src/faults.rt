// A fault as text.
ghost use Rattle.std.specs.Prelude.{◌≡◌};
ghost use Rattle.printing.specs.Printed.{fault_text};

use text::writing::Text;

// The text of a fault: the names line, the line that it is in, and its number.
#[tactic(auto, using(crate::proofs::Printed::digits_short))]
pub fn print_fault(line: u32, number: u8) -> Text<4096>
    ensures { result ≡ fault_text line number }
{
    let mut text = Text::new();
    text.write_bytes(b"line,fault\n");
    text.write_decimal(line);
    text.write_bytes(b",");
    text.write_decimal(u32::from(number));
    text.write_bytes(b"\n");
    text
}
