// bit 0 up: opcode 0-1 | imm[4:0] 2-6 | rd 7-11 | imm[5] 12 | funct3 13-15
ghost use Rattle.formats.specs.declared.kind.Kind.TheVariants.{Ci as Ci-kind};
ghost use Rattle.short.specs.Operands.{Ci-values, Ci-fault};
ghost use Rattle.short.specs.Laws.{Ci-fits, Ci-known, Ci-held};

use crate::operands_of::CiOperands;
use bits::layout::Layout;
use bits::part::{Field, Part, Values};
use formats::faults::{WideCode, narrow};
use formats::format::Format;
use operands::imms::Imm6;
use operands::regs::RegNum;

pub struct Ci;

const PARTS: [Part; 5] = [
    Part::Slice(Field::Opcode, 0, 2),
    Part::Slice(Field::N, 0, 5),
    Part::Slice(Field::D, 0, 5),
    Part::Slice(Field::N, 5, 1),
    Part::Slice(Field::Funct3, 0, 3),
];

impl Format for Ci {
    type Operands = CiOperands;

    ghost kind = { Ci-kind };

    ghost values = { Ci-values };

    ghost fault = { Ci-fault };

    ghost fits = { Ci-fits };

    ghost known = { Ci-known };

    ghost held = { Ci-held };

    fn layout() -> Layout<'static> {
        Layout { parts: &PARTS }
    }

    fn check(o: &CiOperands) -> Result<(), WideCode> {
        narrow(WideCode::Opcode(o.opcode), 2)?;
        narrow(WideCode::Funct3(o.funct3), 3)
    }

    fn split(o: &CiOperands) -> Values {
        Values {
            d: o.rd.value(),
            a: 0,
            b: 0,
            n: u32::from(o.imm.bits()),
            m: 0,
            opcode: o.opcode,
            funct3: o.funct3,
            funct: 0,
        }
    }

    fn make(v: &Values) -> CiOperands {
        CiOperands {
            opcode: v.opcode,
            imm: Imm6::of_bits(v.n),
            rd: RegNum::of_bits(v.d),
            funct3: v.funct3,
        }
    }
}
