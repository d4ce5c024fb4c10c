// bit 0 up: opcode 0-6 | imm[4:0] 7-11 | funct3 12-14 | rs1 15-19 | rs2 20-24 | imm[11:5] 25-31
ghost use Rattle.formats.specs.declared.kind.Kind.TheVariants.{S as S-kind};
ghost use Rattle.wide.specs.Operands.{S-values, S-fault};
ghost use Rattle.wide.specs.Laws.{S-fits, S-known, S-held};

use crate::operands_of::SOperands;
use bits::layout::Layout;
use bits::part::{Field, Part, Values};
use formats::faults::{WideCode, narrow};
use formats::format::Format;
use operands::imms::Imm12;
use operands::regs::RegNum;

pub struct S;

const PARTS: [Part; 6] = [
    Part::Slice(Field::Opcode, 0, 7),
    Part::Slice(Field::N, 0, 5),
    Part::Slice(Field::Funct3, 0, 3),
    Part::Slice(Field::A, 0, 5),
    Part::Slice(Field::B, 0, 5),
    Part::Slice(Field::N, 5, 7),
];

impl Format for S {
    type Operands = SOperands;

    ghost kind = { S-kind };

    ghost values = { S-values };

    ghost fault = { S-fault };

    ghost fits = { S-fits };

    ghost known = { S-known };

    ghost held = { S-held };

    fn layout() -> Layout<'static> {
        Layout { parts: &PARTS }
    }

    fn check(o: &SOperands) -> Result<(), WideCode> {
        narrow(WideCode::Opcode(o.opcode), 7)?;
        narrow(WideCode::Funct3(o.funct3), 3)
    }

    fn split(o: &SOperands) -> Values {
        Values {
            d: 0,
            a: o.rs1.value(),
            b: o.rs2.value(),
            n: o.imm.bits(),
            m: 0,
            opcode: o.opcode,
            funct3: o.funct3,
            funct: 0,
        }
    }

    fn make(v: &Values) -> SOperands {
        SOperands {
            opcode: v.opcode,
            funct3: v.funct3,
            rs1: RegNum::of_bits(v.a),
            rs2: RegNum::of_bits(v.b),
            imm: Imm12::of_bits(v.n),
        }
    }
}
