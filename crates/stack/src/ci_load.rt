// A load by the stack pointer.
ghost use Rattle.formats.specs.declared.kind.Kind.TheVariants.{CiLwsp as word-kind, CiLdsp as double-kind};
ghost use Rattle.stack.specs.Operands.{CiLoad-values, CiLoad-fault};
ghost use Rattle.stack.specs.Laws.{CiLoad-fits, CiLoad-known, CiLoad-held};
ghost use Rattle.std.proofs.Common.{rules};

use crate::operands_of::CiLoadOperands;
use bits::layout::Layout;
use bits::part::{Field, Part, Values};
use formats::access::{Access, Double, Family, Word};
use formats::faults::{WideCode, narrow};
use formats::format::Format;
use operands::imms::Uimm6;
use operands::regs::RegNum;
use std::marker::PhantomData;

// Loads by the stack pointer.
pub struct Loads;

impl Family for Loads {
    ghost widths = { word-kind };
}

// bit 0 up: opcode 0-1 | imm[7:6] 2-3 | imm[4:2] 4-6 | rd 7-11 | imm[5] 12 | funct3 13-15
const WORD: [Part; 6] = [
    Part::Slice(Field::Opcode, 0, 2),
    Part::Slice(Field::N, 4, 2),
    Part::Slice(Field::N, 0, 3),
    Part::Slice(Field::D, 0, 5),
    Part::Slice(Field::N, 3, 1),
    Part::Slice(Field::Funct3, 0, 3),
];

impl Access<Loads> for Word {
    ghost kind = { word-kind };

    ghost spans = { Prim.search rules };

    fn layout() -> Layout<'static> {
        Layout { parts: &WORD }
    }
}

// bit 0 up: opcode 0-1 | imm[8:6] 2-4 | imm[4:3] 5-6 | rd 7-11 | imm[5] 12 | funct3 13-15
const DOUBLE: [Part; 6] = [
    Part::Slice(Field::Opcode, 0, 2),
    Part::Slice(Field::N, 3, 3),
    Part::Slice(Field::N, 0, 2),
    Part::Slice(Field::D, 0, 5),
    Part::Slice(Field::N, 2, 1),
    Part::Slice(Field::Funct3, 0, 3),
];

impl Access<Loads> for Double {
    ghost kind = { double-kind };

    ghost spans = { Prim.search rules };

    fn layout() -> Layout<'static> {
        Layout { parts: &DOUBLE }
    }
}

pub struct CiLoad<A> {
    of: PhantomData<A>,
}

pub type CiLwsp = CiLoad<Word>;

pub type CiLdsp = CiLoad<Double>;

impl<A: Access<Loads>> Format for CiLoad<A> {
    type Operands = CiLoadOperands;

    ghost kind = { A.kind };

    ghost values = { CiLoad-values };

    ghost fault = { CiLoad-fault };

    ghost fits = { CiLoad-fits A.kind A.spans };

    ghost known = { CiLoad-known };

    ghost held = { CiLoad-held A.kind A.spans };

    fn layout() -> Layout<'static> {
        A::layout()
    }

    fn check(o: &CiLoadOperands) -> Result<(), WideCode> {
        narrow(WideCode::Opcode(o.opcode), 2)?;
        narrow(WideCode::Funct3(o.funct3), 3)
    }

    fn split(o: &CiLoadOperands) -> Values {
        Values {
            d: o.rd.value(),
            a: 0,
            b: 0,
            n: u32::from(o.imm.bits()),
            m: 0,
            opcode: o.opcode,
            funct3: o.funct3,
            funct: 0,
        }
    }

    fn make(v: &Values) -> CiLoadOperands {
        CiLoadOperands {
            opcode: v.opcode,
            rd: RegNum::of_bits(v.d),
            imm: Uimm6::of_bits(v.n),
            funct3: v.funct3,
        }
    }
}
