// bit 0 up: opcode 0-1 | 0 2-6 | rs1 7-11 | funct4 12-15
ghost use Rattle.formats.specs.declared.kind.Kind.TheVariants.{Cr2 as Cr2-kind};
ghost use Rattle.short.specs.Operands.{Cr2-values, Cr2-fault};
ghost use Rattle.short.specs.Laws.{Cr2-fits, Cr2-known, Cr2-held};

use crate::operands_of::Cr2Operands;
use bits::layout::Layout;
use bits::part::{Field, Part, Values};
use formats::faults::{WideCode, narrow};
use formats::format::Format;
use operands::regs::RegNum;

pub struct Cr2;

const PARTS: [Part; 4] = [
    Part::Slice(Field::Opcode, 0, 2),
    Part::Fixed(5, 0),
    Part::Slice(Field::A, 0, 5),
    Part::Slice(Field::Funct, 0, 4),
];

impl Format for Cr2 {
    type Operands = Cr2Operands;

    ghost kind = { Cr2-kind };

    ghost values = { Cr2-values };

    ghost fault = { Cr2-fault };

    ghost fits = { Cr2-fits };

    ghost known = { Cr2-known };

    ghost held = { Cr2-held };

    fn layout() -> Layout<'static> {
        Layout { parts: &PARTS }
    }

    fn check(o: &Cr2Operands) -> Result<(), WideCode> {
        narrow(WideCode::Opcode(o.opcode), 2)?;
        narrow(WideCode::Funct4(o.funct4), 4)
    }

    fn split(o: &Cr2Operands) -> Values {
        Values {
            d: 0,
            a: o.rs1.value(),
            b: 0,
            n: 0,
            m: 0,
            opcode: o.opcode,
            funct3: 0,
            funct: o.funct4,
        }
    }

    fn make(v: &Values) -> Cr2Operands {
        Cr2Operands {
            opcode: v.opcode,
            rs1: RegNum::of_bits(v.a),
            funct4: v.funct,
        }
    }
}
