// bit 0 up: opcode 0-6 | imm[11] 7 | imm[4:1] 8-11 | funct3 12-14 | rs1 15-19 | rs2 20-24 | imm[10:5] 25-30 | imm[12] 31
ghost use Rattle.formats.specs.declared.kind.Kind.TheVariants.{B as B-kind};
ghost use Rattle.jumps.specs.Operands.{B-values, B-fault};
ghost use Rattle.jumps.specs.Laws.{B-fits, B-known, B-held, B-kept};
ghost use Rattle.std.proofs.Common.{rules, lit<};

use crate::operands_of::BOperands;
use bits::layout::Layout;
use bits::part::{Field, Part, Values};
use formats::faults::{WideCode, narrow};
use formats::format::Format;
use formats::reaching::Reaching;
use operands::distances::BDistance;
use operands::regs::RegNum;

pub struct B;

const PARTS: [Part; 8] = [
    Part::Slice(Field::Opcode, 0, 7),
    Part::Slice(Field::N, 10, 1),
    Part::Slice(Field::N, 0, 4),
    Part::Slice(Field::Funct3, 0, 3),
    Part::Slice(Field::A, 0, 5),
    Part::Slice(Field::B, 0, 5),
    Part::Slice(Field::N, 4, 6),
    Part::Slice(Field::N, 11, 1),
];

impl Format for B {
    type Operands = BOperands;

    ghost kind = { B-kind };

    ghost values = { B-values };

    ghost fault = { B-fault };

    ghost fits = { B-fits };

    ghost known = { B-known };

    ghost held = { B-held };

    fn layout() -> Layout<'static> {
        Layout { parts: &PARTS }
    }

    fn check(o: &BOperands) -> Result<(), WideCode> {
        narrow(WideCode::Opcode(o.opcode), 7)?;
        narrow(WideCode::Funct3(o.funct3), 3)
    }

    fn split(o: &BOperands) -> Values {
        Values {
            d: 0,
            a: o.rs1.value(),
            b: o.rs2.value(),
            n: o.distance.bits(),
            m: 0,
            opcode: o.opcode,
            funct3: o.funct3,
            funct: 0,
        }
    }

    fn make(v: &Values) -> BOperands {
        BOperands {
            opcode: v.opcode,
            funct3: v.funct3,
            rs1: RegNum::of_bits(v.a),
            rs2: RegNum::of_bits(v.b),
            distance: BDistance::of_bits(v.n),
        }
    }
}

impl Reaching<12> for B {
    ghost distance = { λ o. o.distance };

    ghost wide = { lit< tt };

    ghost small = { lit< tt };

    ghost told = { Prim.search rules };

    ghost kept = { B-kept };

    fn distance(o: &BOperands) -> BDistance {
        o.distance
    }

    fn at_distance(o: &BOperands, d: &BDistance) -> BOperands {
        BOperands { distance: *d, ..*o }
    }
}
