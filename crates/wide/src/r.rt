// bit 0 up: opcode 0-6 | rd 7-11 | funct3 12-14 | rs1 15-19 | rs2 20-24 | funct7 25-31
ghost use Rattle.formats.specs.declared.kind.Kind.TheVariants.{R as R-kind};
ghost use Rattle.wide.specs.Operands.{R-values, R-fault};
ghost use Rattle.wide.specs.Laws.{R-fits, R-known, R-held};

use crate::operands_of::ROperands;
use bits::layout::Layout;
use bits::part::{Field, Part, Values};
use formats::faults::{WideCode, narrow};
use formats::format::Format;
use operands::regs::RegNum;

pub struct R;

const PARTS: [Part; 6] = [
    Part::Slice(Field::Opcode, 0, 7),
    Part::Slice(Field::D, 0, 5),
    Part::Slice(Field::Funct3, 0, 3),
    Part::Slice(Field::A, 0, 5),
    Part::Slice(Field::B, 0, 5),
    Part::Slice(Field::Funct, 0, 7),
];

impl Format for R {
    type Operands = ROperands;

    ghost kind = { R-kind };

    ghost values = { R-values };

    ghost fault = { R-fault };

    ghost fits = { R-fits };

    ghost known = { R-known };

    ghost held = { R-held };

    fn layout() -> Layout<'static> {
        Layout { parts: &PARTS }
    }

    fn check(o: &ROperands) -> Result<(), WideCode> {
        narrow(WideCode::Opcode(o.opcode), 7)?;
        narrow(WideCode::Funct3(o.funct3), 3)?;
        narrow(WideCode::Funct7(o.funct7), 7)
    }

    fn split(o: &ROperands) -> Values {
        Values {
            d: o.rd.value(),
            a: o.rs1.value(),
            b: o.rs2.value(),
            n: 0,
            m: 0,
            opcode: o.opcode,
            funct3: o.funct3,
            funct: o.funct7,
        }
    }

    fn make(v: &Values) -> ROperands {
        ROperands {
            opcode: v.opcode,
            rd: RegNum::of_bits(v.d),
            funct3: v.funct3,
            rs1: RegNum::of_bits(v.a),
            rs2: RegNum::of_bits(v.b),
            funct7: v.funct,
        }
    }
}
