// bit 0 up: opcode 0-6 | vd 7-11 | width 12-14 | rs1 15-19 | 0 20-24 | masking 25 | 0 26-27 | 0 28 | 0 29-31
ghost use Rattle.formats.specs.declared.kind.Kind.TheVariants.{VMem as VMem-kind};
ghost use Rattle.vectors.specs.Operands.{VMem-values, VMem-fault};
ghost use Rattle.vectors.specs.Laws.{VMem-fits, VMem-known, VMem-held};

use crate::operands_of::VMemOperands;
use bits::layout::Layout;
use bits::part::{Field, Part, Values};
use formats::faults::{WideCode, narrow};
use formats::format::Format;
use operands::masking::VecOpMasking;
use operands::regs::RegNum;

pub struct VMem;

const PARTS: [Part; 9] = [
    Part::Slice(Field::Opcode, 0, 7),
    Part::Slice(Field::D, 0, 5),
    Part::Slice(Field::Funct3, 0, 3),
    Part::Slice(Field::A, 0, 5),
    Part::Fixed(5, 0),
    Part::Slice(Field::M, 0, 1),
    Part::Fixed(2, 0),
    Part::Fixed(1, 0),
    Part::Fixed(3, 0),
];

impl Format for VMem {
    type Operands = VMemOperands;

    ghost kind = { VMem-kind };

    ghost values = { VMem-values };

    ghost fault = { VMem-fault };

    ghost fits = { VMem-fits };

    ghost known = { VMem-known };

    ghost held = { VMem-held };

    fn layout() -> Layout<'static> {
        Layout { parts: &PARTS }
    }

    fn check(o: &VMemOperands) -> Result<(), WideCode> {
        narrow(WideCode::Opcode(o.opcode), 7)?;
        narrow(WideCode::Funct3(o.width), 3)
    }

    fn split(o: &VMemOperands) -> Values {
        Values {
            d: o.vd.value(),
            a: o.rs1.value(),
            b: 0,
            n: 0,
            m: o.masking.encode(),
            opcode: o.opcode,
            funct3: o.width,
            funct: 0,
        }
    }

    fn make(v: &Values) -> VMemOperands {
        VMemOperands {
            opcode: v.opcode,
            vd: RegNum::of_bits(v.d),
            width: v.funct3,
            rs1: RegNum::of_bits(v.a),
            masking: VecOpMasking::of_bits(v.m),
        }
    }
}
