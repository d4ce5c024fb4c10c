// bit 0 up: opcode 0-1 | rs2 2-6 | rd 7-11 | funct4 12-15
ghost use Rattle.formats.specs.declared.kind.Kind.TheVariants.{Cr as Cr-kind};
ghost use Rattle.short.specs.Operands.{Cr-values, Cr-fault};
ghost use Rattle.short.specs.Laws.{Cr-fits, Cr-known, Cr-held};

use crate::operands_of::CrOperands;
use bits::layout::Layout;
use bits::part::{Field, Part, Values};
use formats::faults::{WideCode, narrow};
use formats::format::Format;
use operands::regs::RegNum;

pub struct Cr;

const PARTS: [Part; 4] = [
    Part::Slice(Field::Opcode, 0, 2),
    Part::Slice(Field::B, 0, 5),
    Part::Slice(Field::D, 0, 5),
    Part::Slice(Field::Funct, 0, 4),
];

impl Format for Cr {
    type Operands = CrOperands;

    ghost kind = { Cr-kind };

    ghost values = { Cr-values };

    ghost fault = { Cr-fault };

    ghost fits = { Cr-fits };

    ghost known = { Cr-known };

    ghost held = { Cr-held };

    fn layout() -> Layout<'static> {
        Layout { parts: &PARTS }
    }

    fn check(o: &CrOperands) -> Result<(), WideCode> {
        narrow(WideCode::Opcode(o.opcode), 2)?;
        narrow(WideCode::Funct4(o.funct4), 4)
    }

    fn split(o: &CrOperands) -> Values {
        Values {
            d: o.rd.value(),
            a: 0,
            b: o.rs2.value(),
            n: 0,
            m: 0,
            opcode: o.opcode,
            funct3: 0,
            funct: o.funct4,
        }
    }

    fn make(v: &Values) -> CrOperands {
        CrOperands {
            opcode: v.opcode,
            rs2: RegNum::of_bits(v.b),
            rd: RegNum::of_bits(v.d),
            funct4: v.funct,
        }
    }
}
