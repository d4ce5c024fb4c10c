// A load by a short base register.
ghost use Rattle.formats.specs.declared.kind.Kind.TheVariants.{ClWord, ClDouble};
ghost use Rattle.std.proofs.Common.{rules};
ghost use Rattle.memory.specs.Operands.{Cl-values, Cl-fault};
ghost use Rattle.memory.specs.Laws.{Cl-fits, Cl-known, Cl-held};

use crate::operands_of::ClOperands;
use bits::layout::Layout;
use bits::part::{Field, Part, Values};
use formats::access::{Access, Double, Family, Word};
use formats::faults::{WideCode, narrow};
use formats::format::Format;
use operands::imms::UImm5;
use operands::regs::ShortNum;
use std::marker::PhantomData;

// Loads by a short base register.
pub struct Loads;

impl Family for Loads {
    ghost widths = { ClWord };
}

// bit 0 up: opcode 0-1 | rd 2-4 | imm[6] 5 | imm[2] 6 | base 7-9 | imm[5:3] 10-12 | funct3 13-15
const WORD: [Part; 7] = [
    Part::Slice(Field::Opcode, 0, 2),
    Part::Slice(Field::D, 0, 3),
    Part::Slice(Field::N, 4, 1),
    Part::Slice(Field::N, 0, 1),
    Part::Slice(Field::A, 0, 3),
    Part::Slice(Field::N, 1, 3),
    Part::Slice(Field::Funct3, 0, 3),
];

impl Access<Loads> for Word {
    ghost kind = { ClWord };

    ghost spans = { Prim.search rules };

    fn layout() -> Layout<'static> {
        Layout { parts: &WORD }
    }
}

// bit 0 up: opcode 0-1 | rd 2-4 | imm[7:6] 5-6 | base 7-9 | imm[5:3] 10-12 | funct3 13-15
const DOUBLE: [Part; 6] = [
    Part::Slice(Field::Opcode, 0, 2),
    Part::Slice(Field::D, 0, 3),
    Part::Slice(Field::N, 3, 2),
    Part::Slice(Field::A, 0, 3),
    Part::Slice(Field::N, 0, 3),
    Part::Slice(Field::Funct3, 0, 3),
];

impl Access<Loads> for Double {
    ghost kind = { ClDouble };

    ghost spans = { Prim.search rules };

    fn layout() -> Layout<'static> {
        Layout { parts: &DOUBLE }
    }
}

pub struct Cl<A> {
    of: PhantomData<A>,
}

pub type ClWord = Cl<Word>;

pub type ClDouble = Cl<Double>;

impl<A: Access<Loads>> Format for Cl<A> {
    type Operands = ClOperands;

    ghost kind = { A.kind };

    ghost values = { Cl-values };

    ghost fault = { Cl-fault };

    ghost fits = { Cl-fits A.kind A.spans };

    ghost known = { Cl-known };

    ghost held = { Cl-held A.kind A.spans };

    fn layout() -> Layout<'static> {
        A::layout()
    }

    fn check(o: &ClOperands) -> Result<(), WideCode> {
        narrow(WideCode::Opcode(o.opcode), 2)?;
        narrow(WideCode::Funct3(o.funct3), 3)
    }

    fn split(o: &ClOperands) -> Values {
        Values {
            d: o.rd.value(),
            a: o.base.value(),
            b: 0,
            n: o.imm.bits(),
            m: 0,
            opcode: o.opcode,
            funct3: o.funct3,
            funct: 0,
        }
    }

    fn make(v: &Values) -> ClOperands {
        ClOperands {
            opcode: v.opcode,
            rd: ShortNum::of_bits(v.d),
            base: ShortNum::of_bits(v.a),
            imm: UImm5::of_bits(v.n),
            funct3: v.funct3,
        }
    }
}
