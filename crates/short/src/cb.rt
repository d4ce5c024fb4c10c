// bit 0 up: opcode 0-1 | imm[4:0] 2-6 | rd 7-9 | funct2 10-11 | imm[5] 12 | funct3 13-15
ghost use Rattle.formats.specs.declared.kind.Kind.TheVariants.{Cb as Cb-kind};
ghost use Rattle.short.specs.Operands.{Cb-values, Cb-fault};
ghost use Rattle.short.specs.Laws.{Cb-fits, Cb-known, Cb-held};

use crate::operands_of::CbOperands;
use bits::layout::Layout;
use bits::part::{Field, Part, Values};
use formats::faults::{WideCode, narrow};
use formats::format::Format;
use operands::imms::Imm6;
use operands::regs::ShortNum;

pub struct Cb;

const PARTS: [Part; 6] = [
    Part::Slice(Field::Opcode, 0, 2),
    Part::Slice(Field::N, 0, 5),
    Part::Slice(Field::D, 0, 3),
    Part::Slice(Field::Funct, 0, 2),
    Part::Slice(Field::N, 5, 1),
    Part::Slice(Field::Funct3, 0, 3),
];

impl Format for Cb {
    type Operands = CbOperands;

    ghost kind = { Cb-kind };

    ghost values = { Cb-values };

    ghost fault = { Cb-fault };

    ghost fits = { Cb-fits };

    ghost known = { Cb-known };

    ghost held = { Cb-held };

    fn layout() -> Layout<'static> {
        Layout { parts: &PARTS }
    }

    fn check(o: &CbOperands) -> Result<(), WideCode> {
        narrow(WideCode::Opcode(o.opcode), 2)?;
        narrow(WideCode::Funct2(o.funct2), 2)?;
        narrow(WideCode::Funct3(o.funct3), 3)
    }

    fn split(o: &CbOperands) -> Values {
        Values {
            d: o.rd.value(),
            a: 0,
            b: 0,
            n: u32::from(o.imm.bits()),
            m: 0,
            opcode: o.opcode,
            funct3: o.funct3,
            funct: o.funct2,
        }
    }

    fn make(v: &Values) -> CbOperands {
        CbOperands {
            opcode: v.opcode,
            imm: Imm6::of_bits(v.n),
            rd: ShortNum::of_bits(v.d),
            funct2: v.funct,
            funct3: v.funct3,
        }
    }
}
