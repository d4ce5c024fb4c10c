// A store by the stack pointer.
ghost use Rattle.formats.specs.declared.kind.Kind.TheVariants.{CssWord as word-kind, CssDouble as double-kind};
ghost use Rattle.stack.specs.Operands.{Css-values, Css-fault};
ghost use Rattle.stack.specs.Laws.{Css-fits, Css-known, Css-held};
ghost use Rattle.std.proofs.Common.{rules};

use crate::operands_of::CssOperands;
use bits::layout::Layout;
use bits::part::{Field, Part, Values};
use formats::access::{Access, Double, Family, Word};
use formats::faults::{WideCode, narrow};
use formats::format::Format;
use operands::imms::Uimm6;
use operands::regs::RegNum;
use std::marker::PhantomData;

// Stores by the stack pointer.
pub struct Stores;

impl Family for Stores {
    ghost widths = { word-kind };
}

// bit 0 up: opcode 0-1 | src 2-6 | imm[7:6] 7-8 | imm[5:2] 9-12 | funct3 13-15
const WORD: [Part; 5] = [
    Part::Slice(Field::Opcode, 0, 2),
    Part::Slice(Field::B, 0, 5),
    Part::Slice(Field::N, 4, 2),
    Part::Slice(Field::N, 0, 4),
    Part::Slice(Field::Funct3, 0, 3),
];

impl Access<Stores> for Word {
    ghost kind = { word-kind };

    ghost spans = { Prim.search rules };

    fn layout() -> Layout<'static> {
        Layout { parts: &WORD }
    }
}

// bit 0 up: opcode 0-1 | src 2-6 | imm[8:6] 7-9 | imm[5:3] 10-12 | funct3 13-15
const DOUBLE: [Part; 5] = [
    Part::Slice(Field::Opcode, 0, 2),
    Part::Slice(Field::B, 0, 5),
    Part::Slice(Field::N, 3, 3),
    Part::Slice(Field::N, 0, 3),
    Part::Slice(Field::Funct3, 0, 3),
];

impl Access<Stores> for Double {
    ghost kind = { double-kind };

    ghost spans = { Prim.search rules };

    fn layout() -> Layout<'static> {
        Layout { parts: &DOUBLE }
    }
}

pub struct Css<A> {
    of: PhantomData<A>,
}

pub type CssWord = Css<Word>;

pub type CssDouble = Css<Double>;

impl<A: Access<Stores>> Format for Css<A> {
    type Operands = CssOperands;

    ghost kind = { A.kind };

    ghost values = { Css-values };

    ghost fault = { Css-fault };

    ghost fits = { Css-fits A.kind A.spans };

    ghost known = { Css-known };

    ghost held = { Css-held A.kind A.spans };

    fn layout() -> Layout<'static> {
        A::layout()
    }

    fn check(o: &CssOperands) -> Result<(), WideCode> {
        narrow(WideCode::Opcode(o.opcode), 2)?;
        narrow(WideCode::Funct3(o.funct3), 3)
    }

    fn split(o: &CssOperands) -> Values {
        Values {
            d: 0,
            a: 0,
            b: o.src.value(),
            n: u32::from(o.imm.bits()),
            m: 0,
            opcode: o.opcode,
            funct3: o.funct3,
            funct: 0,
        }
    }

    fn make(v: &Values) -> CssOperands {
        CssOperands {
            opcode: v.opcode,
            src: RegNum::of_bits(v.b),
            imm: Uimm6::of_bits(v.n),
            funct3: v.funct3,
        }
    }
}
