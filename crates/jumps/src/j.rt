// bit 0 up: opcode 0-6 | rd 7-11 | imm[19:12] 12-19 | imm[11] 20 | imm[10:1] 21-30 | imm[20] 31
ghost use Rattle.formats.specs.declared.kind.Kind.TheVariants.{J as J-kind};
ghost use Rattle.jumps.specs.Operands.{J-values, J-fault};
ghost use Rattle.jumps.specs.Laws.{J-fits, J-known, J-held, J-kept};
ghost use Rattle.std.proofs.Common.{rules, lit<};

use crate::operands_of::JOperands;
use bits::layout::Layout;
use bits::part::{Field, Part, Values};
use formats::faults::{WideCode, narrow};
use formats::format::Format;
use formats::reaching::Reaching;
use operands::distances::JDistance;
use operands::regs::RegNum;

pub struct J;

const PARTS: [Part; 6] = [
    Part::Slice(Field::Opcode, 0, 7),
    Part::Slice(Field::D, 0, 5),
    Part::Slice(Field::N, 11, 8),
    Part::Slice(Field::N, 10, 1),
    Part::Slice(Field::N, 0, 10),
    Part::Slice(Field::N, 19, 1),
];

impl Format for J {
    type Operands = JOperands;

    ghost kind = { J-kind };

    ghost values = { J-values };

    ghost fault = { J-fault };

    ghost fits = { J-fits };

    ghost known = { J-known };

    ghost held = { J-held };

    fn layout() -> Layout<'static> {
        Layout { parts: &PARTS }
    }

    fn check(o: &JOperands) -> Result<(), WideCode> {
        narrow(WideCode::Opcode(o.opcode), 7)
    }

    fn split(o: &JOperands) -> Values {
        Values {
            d: o.rd.value(),
            a: 0,
            b: 0,
            n: o.distance.bits(),
            m: 0,
            opcode: o.opcode,
            funct3: 0,
            funct: 0,
        }
    }

    fn make(v: &Values) -> JOperands {
        JOperands {
            opcode: v.opcode,
            rd: RegNum::of_bits(v.d),
            distance: JDistance::of_bits(v.n),
        }
    }
}

impl Reaching<20> for J {
    ghost distance = { λ o. o.distance };

    ghost wide = { lit< tt };

    ghost small = { lit< tt };

    ghost told = { Prim.search rules };

    ghost kept = { J-kept };

    fn distance(o: &JOperands) -> JDistance {
        o.distance
    }

    fn at_distance(o: &JOperands, d: &JDistance) -> JOperands {
        JOperands { distance: *d, ..*o }
    }
}
