// bit 0 up: opcode 0-6 | rd 7-11 | imm[31:12] 12-31
ghost use Rattle.formats.specs.declared.kind.Kind.TheVariants.{U as U-kind};
ghost use Rattle.wide.specs.Operands.{U-values, U-fault};
ghost use Rattle.wide.specs.Laws.{U-fits, U-known, U-held};

use crate::operands_of::UOperands;
use bits::layout::Layout;
use bits::part::{Field, Part, Values};
use formats::faults::{WideCode, narrow};
use formats::format::Format;
use operands::imms::Imm20;
use operands::regs::RegNum;

pub struct U;

const PARTS: [Part; 3] = [
    Part::Slice(Field::Opcode, 0, 7),
    Part::Slice(Field::D, 0, 5),
    Part::Slice(Field::N, 0, 20),
];

impl Format for U {
    type Operands = UOperands;

    ghost kind = { U-kind };

    ghost values = { U-values };

    ghost fault = { U-fault };

    ghost fits = { U-fits };

    ghost known = { U-known };

    ghost held = { U-held };

    fn layout() -> Layout<'static> {
        Layout { parts: &PARTS }
    }

    fn check(o: &UOperands) -> Result<(), WideCode> {
        narrow(WideCode::Opcode(o.opcode), 7)
    }

    fn split(o: &UOperands) -> Values {
        Values {
            d: o.rd.value(),
            a: 0,
            b: 0,
            n: o.imm.bits(),
            m: 0,
            opcode: o.opcode,
            funct3: 0,
            funct: 0,
        }
    }

    fn make(v: &Values) -> UOperands {
        UOperands {
            opcode: v.opcode,
            rd: RegNum::of_bits(v.d),
            imm: Imm20::of_bits(v.n),
        }
    }
}
