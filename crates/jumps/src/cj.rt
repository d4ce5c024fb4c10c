// bit 0 up: opcode 0-1 | imm[5] 2 | imm[3:1] 3-5 | imm[7] 6 | imm[6] 7 | imm[10] 8 | imm[9:8] 9-10 | imm[4] 11 | imm[11] 12 | funct3 13-15
ghost use Rattle.formats.specs.declared.kind.Kind.TheVariants.{Cj as Cj-kind};
ghost use Rattle.jumps.specs.Operands.{Cj-values, Cj-fault};
ghost use Rattle.jumps.specs.Laws.{Cj-fits, Cj-known, Cj-held, Cj-kept};
ghost use Rattle.std.proofs.Common.{rules, lit<};

use crate::operands_of::CjOperands;
use bits::layout::Layout;
use bits::part::{Field, Part, Values};
use formats::faults::{WideCode, narrow};
use formats::format::Format;
use formats::reaching::Reaching;
use operands::distances::CjDistance;

pub struct Cj;

const PARTS: [Part; 10] = [
    Part::Slice(Field::Opcode, 0, 2),
    Part::Slice(Field::N, 4, 1),
    Part::Slice(Field::N, 0, 3),
    Part::Slice(Field::N, 6, 1),
    Part::Slice(Field::N, 5, 1),
    Part::Slice(Field::N, 9, 1),
    Part::Slice(Field::N, 7, 2),
    Part::Slice(Field::N, 3, 1),
    Part::Slice(Field::N, 10, 1),
    Part::Slice(Field::Funct3, 0, 3),
];

impl Format for Cj {
    type Operands = CjOperands;

    ghost kind = { Cj-kind };

    ghost values = { Cj-values };

    ghost fault = { Cj-fault };

    ghost fits = { Cj-fits };

    ghost known = { Cj-known };

    ghost held = { Cj-held };

    fn layout() -> Layout<'static> {
        Layout { parts: &PARTS }
    }

    fn check(o: &CjOperands) -> Result<(), WideCode> {
        narrow(WideCode::Opcode(o.opcode), 2)?;
        narrow(WideCode::Funct3(o.funct3), 3)
    }

    fn split(o: &CjOperands) -> Values {
        Values {
            d: 0,
            a: 0,
            b: 0,
            n: o.distance.bits(),
            m: 0,
            opcode: o.opcode,
            funct3: o.funct3,
            funct: 0,
        }
    }

    fn make(v: &Values) -> CjOperands {
        CjOperands {
            opcode: v.opcode,
            distance: CjDistance::of_bits(v.n),
            funct3: v.funct3,
        }
    }
}

impl Reaching<11> for Cj {
    ghost distance = { λ o. o.distance };

    ghost wide = { lit< tt };

    ghost small = { lit< tt };

    ghost told = { Prim.search rules };

    ghost kept = { Cj-kept };

    fn distance(o: &CjOperands) -> CjDistance {
        o.distance
    }

    fn at_distance(o: &CjOperands, d: &CjDistance) -> CjOperands {
        CjOperands { distance: *d, ..*o }
    }
}
