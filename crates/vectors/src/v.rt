// bit 0 up: opcode 0-6 | vd 7-11 | funct3 12-14 | vs1 15-19 | vs2 20-24 | masking 25 | funct6 26-31
ghost use Rattle.formats.specs.declared.kind.Kind.TheVariants.{V as V-kind};
ghost use Rattle.vectors.specs.Operands.{V-values, V-fault};
ghost use Rattle.vectors.specs.Laws.{V-fits, V-known, V-held};

use crate::operands_of::VOperands;
use bits::layout::Layout;
use bits::part::{Field, Part, Values};
use formats::faults::{WideCode, narrow};
use formats::format::Format;
use operands::masking::VecOpMasking;
use operands::regs::RegNum;

pub struct V;

const PARTS: [Part; 7] = [
    Part::Slice(Field::Opcode, 0, 7),
    Part::Slice(Field::D, 0, 5),
    Part::Slice(Field::Funct3, 0, 3),
    Part::Slice(Field::A, 0, 5),
    Part::Slice(Field::B, 0, 5),
    Part::Slice(Field::M, 0, 1),
    Part::Slice(Field::Funct, 0, 6),
];

impl Format for V {
    type Operands = VOperands;

    ghost kind = { V-kind };

    ghost values = { V-values };

    ghost fault = { V-fault };

    ghost fits = { V-fits };

    ghost known = { V-known };

    ghost held = { V-held };

    fn layout() -> Layout<'static> {
        Layout { parts: &PARTS }
    }

    fn check(o: &VOperands) -> Result<(), WideCode> {
        narrow(WideCode::Opcode(o.opcode), 7)?;
        narrow(WideCode::Funct3(o.funct3), 3)?;
        narrow(WideCode::Funct6(o.funct6), 6)
    }

    fn split(o: &VOperands) -> Values {
        Values {
            d: o.vd.value(),
            a: o.vs1.value(),
            b: o.vs2.value(),
            n: 0,
            m: o.masking.encode(),
            opcode: o.opcode,
            funct3: o.funct3,
            funct: o.funct6,
        }
    }

    fn make(v: &Values) -> VOperands {
        VOperands {
            opcode: v.opcode,
            vd: RegNum::of_bits(v.d),
            funct3: v.funct3,
            vs1: RegNum::of_bits(v.a),
            vs2: RegNum::of_bits(v.b),
            masking: VecOpMasking::of_bits(v.m),
            funct6: v.funct,
        }
    }
}
