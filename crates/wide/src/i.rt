// bit 0 up: opcode 0-6 | rd 7-11 | funct3 12-14 | rs1 15-19 | imm[11:0] 20-31
ghost use Rattle.formats.specs.declared.kind.Kind.TheVariants.{I as I-kind};
ghost use Rattle.wide.specs.Operands.{I-values, I-fault};
ghost use Rattle.wide.specs.Laws.{I-fits, I-known, I-held};

use crate::operands_of::IOperands;
use bits::layout::Layout;
use bits::part::{Field, Part, Values};
use formats::faults::{WideCode, narrow};
use formats::format::Format;
use operands::imms::Imm12;
use operands::regs::RegNum;

pub struct I;

const PARTS: [Part; 5] = [
    Part::Slice(Field::Opcode, 0, 7),
    Part::Slice(Field::D, 0, 5),
    Part::Slice(Field::Funct3, 0, 3),
    Part::Slice(Field::A, 0, 5),
    Part::Slice(Field::N, 0, 12),
];

impl Format for I {
    type Operands = IOperands;

    ghost kind = { I-kind };

    ghost values = { I-values };

    ghost fault = { I-fault };

    ghost fits = { I-fits };

    ghost known = { I-known };

    ghost held = { I-held };

    fn layout() -> Layout<'static> {
        Layout { parts: &PARTS }
    }

    fn check(o: &IOperands) -> Result<(), WideCode> {
        narrow(WideCode::Opcode(o.opcode), 7)?;
        narrow(WideCode::Funct3(o.funct3), 3)
    }

    fn split(o: &IOperands) -> Values {
        Values {
            d: o.rd.value(),
            a: o.rs1.value(),
            b: 0,
            n: o.imm.bits(),
            m: 0,
            opcode: o.opcode,
            funct3: o.funct3,
            funct: 0,
        }
    }

    fn make(v: &Values) -> IOperands {
        IOperands {
            opcode: v.opcode,
            rd: RegNum::of_bits(v.d),
            funct3: v.funct3,
            rs1: RegNum::of_bits(v.a),
            imm: Imm12::of_bits(v.n),
        }
    }
}
