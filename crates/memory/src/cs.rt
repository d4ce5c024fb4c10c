// A store by a short base register.
ghost use Rattle.formats.specs.declared.kind.Kind.TheVariants.{CsWord, CsDouble};
ghost use Rattle.std.proofs.Common.{rules};
ghost use Rattle.memory.specs.Operands.{Cs-values, Cs-fault};
ghost use Rattle.memory.specs.Laws.{Cs-fits, Cs-known, Cs-held};

use crate::operands_of::CsOperands;
use bits::layout::Layout;
use bits::part::{Field, Part, Values};
use formats::access::{Access, Double, Family, Word};
use formats::faults::{WideCode, narrow};
use formats::format::Format;
use operands::imms::UImm5;
use operands::regs::ShortNum;
use std::marker::PhantomData;

// Stores by a short base register.
pub struct Stores;

impl Family for Stores {
    ghost widths = { CsWord };
}

// bit 0 up: opcode 0-1 | src 2-4 | imm[6] 5 | imm[2] 6 | base 7-9 | imm[5:3] 10-12 | funct3 13-15
const WORD: [Part; 7] = [
    Part::Slice(Field::Opcode, 0, 2),
    Part::Slice(Field::B, 0, 3),
    Part::Slice(Field::N, 4, 1),
    Part::Slice(Field::N, 0, 1),
    Part::Slice(Field::A, 0, 3),
    Part::Slice(Field::N, 1, 3),
    Part::Slice(Field::Funct3, 0, 3),
];

impl Access<Stores> for Word {
    ghost kind = { CsWord };

    ghost spans = { Prim.search rules };

    fn layout() -> Layout<'static> {
        Layout { parts: &WORD }
    }
}

// bit 0 up: opcode 0-1 | src 2-4 | imm[7:6] 5-6 | base 7-9 | imm[5:3] 10-12 | funct3 13-15
const DOUBLE: [Part; 6] = [
    Part::Slice(Field::Opcode, 0, 2),
    Part::Slice(Field::B, 0, 3),
    Part::Slice(Field::N, 3, 2),
    Part::Slice(Field::A, 0, 3),
    Part::Slice(Field::N, 0, 3),
    Part::Slice(Field::Funct3, 0, 3),
];

impl Access<Stores> for Double {
    ghost kind = { CsDouble };

    ghost spans = { Prim.search rules };

    fn layout() -> Layout<'static> {
        Layout { parts: &DOUBLE }
    }
}

pub struct Cs<A> {
    of: PhantomData<A>,
}

pub type CsWord = Cs<Word>;

pub type CsDouble = Cs<Double>;

impl<A: Access<Stores>> Format for Cs<A> {
    type Operands = CsOperands;

    ghost kind = { A.kind };

    ghost values = { Cs-values };

    ghost fault = { Cs-fault };

    ghost fits = { Cs-fits A.kind A.spans };

    ghost known = { Cs-known };

    ghost held = { Cs-held A.kind A.spans };

    fn layout() -> Layout<'static> {
        A::layout()
    }

    fn check(o: &CsOperands) -> Result<(), WideCode> {
        narrow(WideCode::Opcode(o.opcode), 2)?;
        narrow(WideCode::Funct3(o.funct3), 3)
    }

    fn split(o: &CsOperands) -> Values {
        Values {
            d: 0,
            a: o.base.value(),
            b: o.src.value(),
            n: o.imm.bits(),
            m: 0,
            opcode: o.opcode,
            funct3: o.funct3,
            funct: 0,
        }
    }

    fn make(v: &Values) -> CsOperands {
        CsOperands {
            opcode: v.opcode,
            src: ShortNum::of_bits(v.b),
            base: ShortNum::of_bits(v.a),
            imm: UImm5::of_bits(v.n),
            funct3: v.funct3,
        }
    }
}
