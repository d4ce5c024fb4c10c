// bit 0 up: opcode 0-6 | vd 7-11 | funct3 12-14 | imm[4:0] 15-19 | vs2 20-24 | masking 25 | funct6 26-31
ghost use Rattle.formats.specs.declared.kind.Kind.TheVariants.{VImm as VImm-kind};
ghost use Rattle.vectors.specs.Operands.{VImm-values, VImm-fault};
ghost use Rattle.vectors.specs.Laws.{VImm-fits, VImm-known, VImm-held};

use crate::operands_of::VImmOperands;
use bits::layout::Layout;
use bits::part::{Field, Part, Values};
use formats::faults::{WideCode, narrow};
use formats::format::Format;
use operands::imms::Imm5;
use operands::masking::VecOpMasking;
use operands::regs::RegNum;

pub struct VImm;

const PARTS: [Part; 7] = [
    Part::Slice(Field::Opcode, 0, 7),
    Part::Slice(Field::D, 0, 5),
    Part::Slice(Field::Funct3, 0, 3),
    Part::Slice(Field::N, 0, 5),
    Part::Slice(Field::B, 0, 5),
    Part::Slice(Field::M, 0, 1),
    Part::Slice(Field::Funct, 0, 6),
];

impl Format for VImm {
    type Operands = VImmOperands;

    ghost kind = { VImm-kind };

    ghost values = { VImm-values };

    ghost fault = { VImm-fault };

    ghost fits = { VImm-fits };

    ghost known = { VImm-known };

    ghost held = { VImm-held };

    fn layout() -> Layout<'static> {
        Layout { parts: &PARTS }
    }

    fn check(o: &VImmOperands) -> Result<(), WideCode> {
        narrow(WideCode::Opcode(o.opcode), 7)?;
        narrow(WideCode::Funct3(o.funct3), 3)?;
        narrow(WideCode::Funct6(o.funct6), 6)
    }

    fn split(o: &VImmOperands) -> Values {
        Values {
            d: o.vd.value(),
            a: 0,
            b: o.vs2.value(),
            n: u32::from(o.imm.bits()),
            m: o.masking.encode(),
            opcode: o.opcode,
            funct3: o.funct3,
            funct: o.funct6,
        }
    }

    fn make(v: &Values) -> VImmOperands {
        VImmOperands {
            opcode: v.opcode,
            vd: RegNum::of_bits(v.d),
            funct3: v.funct3,
            imm: Imm5::of_bits(v.n),
            vs2: RegNum::of_bits(v.b),
            masking: VecOpMasking::of_bits(v.m),
            funct6: v.funct,
        }
    }
}
