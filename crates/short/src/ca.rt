// bit 0 up: opcode 0-1 | rs2 2-4 | funct2 5-6 | rd 7-9 | funct6 10-15
ghost use Rattle.formats.specs.declared.kind.Kind.TheVariants.{Ca as Ca-kind};
ghost use Rattle.short.specs.Operands.{Ca-values, Ca-fault};
ghost use Rattle.short.specs.Laws.{Ca-fits, Ca-known, Ca-held};

use crate::operands_of::CaOperands;
use bits::layout::Layout;
use bits::part::{Field, Part, Values};
use formats::faults::{WideCode, narrow};
use formats::format::Format;
use operands::regs::ShortNum;

pub struct Ca;

const PARTS: [Part; 5] = [
    Part::Slice(Field::Opcode, 0, 2),
    Part::Slice(Field::B, 0, 3),
    Part::Slice(Field::Funct3, 0, 2),
    Part::Slice(Field::D, 0, 3),
    Part::Slice(Field::Funct, 0, 6),
];

impl Format for Ca {
    type Operands = CaOperands;

    ghost kind = { Ca-kind };

    ghost values = { Ca-values };

    ghost fault = { Ca-fault };

    ghost fits = { Ca-fits };

    ghost known = { Ca-known };

    ghost held = { Ca-held };

    fn layout() -> Layout<'static> {
        Layout { parts: &PARTS }
    }

    fn check(o: &CaOperands) -> Result<(), WideCode> {
        narrow(WideCode::Opcode(o.opcode), 2)?;
        narrow(WideCode::Funct2(o.funct2), 2)?;
        narrow(WideCode::Funct6(o.funct6), 6)
    }

    fn split(o: &CaOperands) -> Values {
        Values {
            d: o.rd.value(),
            a: 0,
            b: o.rs2.value(),
            n: 0,
            m: 0,
            opcode: o.opcode,
            funct3: o.funct2,
            funct: o.funct6,
        }
    }

    fn make(v: &Values) -> CaOperands {
        CaOperands {
            opcode: v.opcode,
            rs2: ShortNum::of_bits(v.b),
            funct2: v.funct3,
            rd: ShortNum::of_bits(v.d),
            funct6: v.funct,
        }
    }
}
