// bit 0 up: opcode 0-1 | imm[5] 2 | imm[8:7] 3-4 | imm[6] 5 | imm[4] 6 | 2 7-11 | imm[9] 12 | funct3 13-15
ghost use Rattle.formats.specs.declared.kind.Kind.TheVariants.{CiAddi16sp as CiAddi16sp-kind};
ghost use Rattle.stack.specs.Operands.{CiAddi16sp-values, CiAddi16sp-fault};
ghost use Rattle.stack.specs.Laws.{CiAddi16sp-fits, CiAddi16sp-known, CiAddi16sp-held};

use crate::operands_of::CiAddi16spOperands;
use bits::layout::Layout;
use bits::part::{Field, Part, Values};
use formats::faults::{WideCode, narrow};
use formats::format::Format;
use operands::imms::Imm6;

pub struct CiAddi16sp;

const PARTS: [Part; 8] = [
    Part::Slice(Field::Opcode, 0, 2),
    Part::Slice(Field::N, 1, 1),
    Part::Slice(Field::N, 3, 2),
    Part::Slice(Field::N, 2, 1),
    Part::Slice(Field::N, 0, 1),
    Part::Fixed(5, 2),
    Part::Slice(Field::N, 5, 1),
    Part::Slice(Field::Funct3, 0, 3),
];

impl Format for CiAddi16sp {
    type Operands = CiAddi16spOperands;

    ghost kind = { CiAddi16sp-kind };

    ghost values = { CiAddi16sp-values };

    ghost fault = { CiAddi16sp-fault };

    ghost fits = { CiAddi16sp-fits };

    ghost known = { CiAddi16sp-known };

    ghost held = { CiAddi16sp-held };

    fn layout() -> Layout<'static> {
        Layout { parts: &PARTS }
    }

    fn check(o: &CiAddi16spOperands) -> Result<(), WideCode> {
        narrow(WideCode::Opcode(o.opcode), 2)?;
        narrow(WideCode::Funct3(o.funct3), 3)
    }

    fn split(o: &CiAddi16spOperands) -> Values {
        Values {
            d: 0,
            a: 0,
            b: 0,
            n: u32::from(o.imm.bits()),
            m: 0,
            opcode: o.opcode,
            funct3: o.funct3,
            funct: 0,
        }
    }

    fn make(v: &Values) -> CiAddi16spOperands {
        CiAddi16spOperands {
            opcode: v.opcode,
            imm: Imm6::of_bits(v.n),
            funct3: v.funct3,
        }
    }
}
