// bit 0 up: opcode 0-1 | rd 2-4 | imm[3] 5 | imm[2] 6 | imm[9:6] 7-10 | imm[5:4] 11-12 | funct3 13-15
ghost use Rattle.formats.specs.declared.kind.Kind.TheVariants.{Ciw as Ciw-kind};
ghost use Rattle.short.specs.Operands.{Ciw-values, Ciw-fault};
ghost use Rattle.short.specs.Laws.{Ciw-fits, Ciw-known, Ciw-held};

use crate::operands_of::CiwOperands;
use bits::layout::Layout;
use bits::part::{Field, Part, Values};
use formats::faults::{WideCode, narrow};
use formats::format::Format;
use operands::imms::Uimm8;
use operands::regs::ShortNum;

pub struct Ciw;

const PARTS: [Part; 7] = [
    Part::Slice(Field::Opcode, 0, 2),
    Part::Slice(Field::D, 0, 3),
    Part::Slice(Field::N, 1, 1),
    Part::Slice(Field::N, 0, 1),
    Part::Slice(Field::N, 4, 4),
    Part::Slice(Field::N, 2, 2),
    Part::Slice(Field::Funct3, 0, 3),
];

impl Format for Ciw {
    type Operands = CiwOperands;

    ghost kind = { Ciw-kind };

    ghost values = { Ciw-values };

    ghost fault = { Ciw-fault };

    ghost fits = { Ciw-fits };

    ghost known = { Ciw-known };

    ghost held = { Ciw-held };

    fn layout() -> Layout<'static> {
        Layout { parts: &PARTS }
    }

    fn check(o: &CiwOperands) -> Result<(), WideCode> {
        narrow(WideCode::Opcode(o.opcode), 2)?;
        narrow(WideCode::Funct3(o.funct3), 3)
    }

    fn split(o: &CiwOperands) -> Values {
        Values {
            d: o.rd.value(),
            a: 0,
            b: 0,
            n: u32::from(o.imm.bits()),
            m: 0,
            opcode: o.opcode,
            funct3: o.funct3,
            funct: 0,
        }
    }

    fn make(v: &Values) -> CiwOperands {
        CiwOperands {
            opcode: v.opcode,
            rd: ShortNum::of_bits(v.d),
            imm: Uimm8::of_bits(v.n),
            funct3: v.funct3,
        }
    }
}
