// bit 0 up: opcode 0-1 | 0 2-6 | 0 7-11 | funct4 12-15
ghost use Rattle.formats.specs.declared.kind.Kind.TheVariants.{CrBare as CrBare-kind};
ghost use Rattle.short.specs.Operands.{CrBare-values, CrBare-fault};
ghost use Rattle.short.specs.Laws.{CrBare-fits, CrBare-known, CrBare-held};

use crate::operands_of::CrBareOperands;
use bits::layout::Layout;
use bits::part::{Field, Part, Values};
use formats::faults::{WideCode, narrow};
use formats::format::Format;

pub struct CrBare;

const PARTS: [Part; 4] = [
    Part::Slice(Field::Opcode, 0, 2),
    Part::Fixed(5, 0),
    Part::Fixed(5, 0),
    Part::Slice(Field::Funct, 0, 4),
];

impl Format for CrBare {
    type Operands = CrBareOperands;

    ghost kind = { CrBare-kind };

    ghost values = { CrBare-values };

    ghost fault = { CrBare-fault };

    ghost fits = { CrBare-fits };

    ghost known = { CrBare-known };

    ghost held = { CrBare-held };

    fn layout() -> Layout<'static> {
        Layout { parts: &PARTS }
    }

    fn check(o: &CrBareOperands) -> Result<(), WideCode> {
        narrow(WideCode::Opcode(o.opcode), 2)?;
        narrow(WideCode::Funct4(o.funct4), 4)
    }

    fn split(o: &CrBareOperands) -> Values {
        Values {
            d: 0,
            a: 0,
            b: 0,
            n: 0,
            m: 0,
            opcode: o.opcode,
            funct3: 0,
            funct: o.funct4,
        }
    }

    fn make(v: &Values) -> CrBareOperands {
        CrBareOperands {
            opcode: v.opcode,
            funct4: v.funct,
        }
    }
}
