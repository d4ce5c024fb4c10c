// The marked cases, some others, and examples of the manuals.
ghost use Rattle.std.specs.Prelude.{◌≡◌, map};
ghost use Rattle.std.specs.List.{AllByRecursion};
ghost use Rattle.cases.specs.Claims.{claim_of, Holds};
ghost use Rattle.cases.specs.Marked.{marked, others, examples};

use crate::case::Case;
use crate::made::Parts;
use instructions::fields::Fields;

const MARKED: [Case; 9] = [
    Case::Word {
        name: "add",
        fields: Fields {
            d: 3,
            a: 1,
            b: 2,
            n: 0,
            m: 0,
        },
        word: 0x002081b3,
    },
    Case::Word {
        name: "VaddVV",
        fields: Fields {
            d: 1,
            a: 3,
            b: 2,
            n: 0,
            m: 0,
        },
        word: 0x022180d7,
    },
    Case::Word {
        name: "vle32",
        fields: Fields {
            d: 8,
            a: 10,
            b: 0,
            n: 0,
            m: 0,
        },
        word: 0x02056407,
    },
    Case::Word {
        name: "CJ",
        fields: Fields {
            d: 0,
            a: 0,
            b: 0,
            n: 64,
            m: 0,
        },
        word: 0xa081,
    },
    Case::Word {
        name: "CJ",
        fields: Fields {
            d: 0,
            a: 0,
            b: 0,
            n: -2,
            m: 0,
        },
        word: 0xbffd,
    },
    Case::Word {
        name: "CMv",
        fields: Fields {
            d: 10,
            a: 0,
            b: 11,
            n: 0,
            m: 0,
        },
        word: 0x852e,
    },
    Case::Word {
        name: "CLwsp",
        fields: Fields {
            d: 1,
            a: 0,
            b: 0,
            n: 64,
            m: 0,
        },
        word: 0x4086,
    },
    Case::Pair {
        value: 2048,
        parts: Parts {
            high: 1,
            low: -2048,
        },
    },
    Case::Pair {
        value: -2049,
        parts: Parts {
            high: -1,
            low: 2047,
        },
    },
];

const OTHERS: [Case; 4] = [
    Case::Pair {
        value: 2147481599,
        parts: Parts {
            high: 524287,
            low: 2047,
        },
    },
    Case::NoPair { value: 2147481600 },
    Case::Refused {
        name: "VaddVV",
        fields: Fields {
            d: 0,
            a: 3,
            b: 2,
            n: 0,
            m: 1,
        },
        number: 4,
    },
    Case::Word {
        name: "VmseqVV",
        fields: Fields {
            d: 0,
            a: 3,
            b: 2,
            n: 0,
            m: 1,
        },
        word: 0x60218057,
    },
];

// What the manuals write these for.
const EXAMPLES: [Case; 18] = [
    // nop
    Case::Word {
        name: "addi",
        fields: Fields {
            d: 0,
            a: 0,
            b: 0,
            n: 0,
            m: 0,
        },
        word: 0x00000013,
    },
    // mv x5, x6
    Case::Word {
        name: "addi",
        fields: Fields {
            d: 5,
            a: 6,
            b: 0,
            n: 0,
            m: 0,
        },
        word: 0x00030293,
    },
    // not x5, x6
    Case::Word {
        name: "xori",
        fields: Fields {
            d: 5,
            a: 6,
            b: 0,
            n: -1,
            m: 0,
        },
        word: 0xfff34293,
    },
    // neg x5, x6
    Case::Word {
        name: "sub",
        fields: Fields {
            d: 5,
            a: 0,
            b: 6,
            n: 0,
            m: 0,
        },
        word: 0x406002b3,
    },
    // seqz x5, x6
    Case::Word {
        name: "sltiu",
        fields: Fields {
            d: 5,
            a: 6,
            b: 0,
            n: 1,
            m: 0,
        },
        word: 0x00133293,
    },
    // snez x5, x6
    Case::Word {
        name: "sltu",
        fields: Fields {
            d: 5,
            a: 0,
            b: 6,
            n: 0,
            m: 0,
        },
        word: 0x006032b3,
    },
    // sltz x5, x6
    Case::Word {
        name: "slt",
        fields: Fields {
            d: 5,
            a: 6,
            b: 0,
            n: 0,
            m: 0,
        },
        word: 0x000322b3,
    },
    // sgtz x5, x6
    Case::Word {
        name: "slt",
        fields: Fields {
            d: 5,
            a: 0,
            b: 6,
            n: 0,
            m: 0,
        },
        word: 0x006022b3,
    },
    // beqz x5, 16 bytes on
    Case::Word {
        name: "beq",
        fields: Fields {
            d: 0,
            a: 5,
            b: 0,
            n: 16,
            m: 0,
        },
        word: 0x00028863,
    },
    // j, 4 bytes back
    Case::Word {
        name: "jal",
        fields: Fields {
            d: 0,
            a: 0,
            b: 0,
            n: -4,
            m: 0,
        },
        word: 0xffdff06f,
    },
    // ret
    Case::Word {
        name: "jalr",
        fields: Fields {
            d: 0,
            a: 1,
            b: 0,
            n: 0,
            m: 0,
        },
        word: 0x00008067,
    },
    // vneg.v v1, v2
    Case::Word {
        name: "VrsubVX",
        fields: Fields {
            d: 1,
            a: 0,
            b: 2,
            n: 0,
            m: 0,
        },
        word: 0x0e2040d7,
    },
    // vnot.v v1, v2
    Case::Word {
        name: "VxorVI",
        fields: Fields {
            d: 1,
            a: 0,
            b: 2,
            n: -1,
            m: 0,
        },
        word: 0x2e2fb0d7,
    },
    // vwcvt.x.x.v v2, v4
    Case::Word {
        name: "VwaddVX",
        fields: Fields {
            d: 2,
            a: 0,
            b: 4,
            n: 0,
            m: 0,
        },
        word: 0xc6406157,
    },
    // vmmv.m v1, v2
    Case::Word {
        name: "VmandMM",
        fields: Fields {
            d: 1,
            a: 2,
            b: 2,
            n: 0,
            m: 0,
        },
        word: 0x662120d7,
    },
    // vmnot.m v1, v2
    Case::Word {
        name: "VmnandMM",
        fields: Fields {
            d: 1,
            a: 2,
            b: 2,
            n: 0,
            m: 0,
        },
        word: 0x762120d7,
    },
    // ret
    Case::Word {
        name: "CJr",
        fields: Fields {
            d: 0,
            a: 1,
            b: 0,
            n: 0,
            m: 0,
        },
        word: 0x8082,
    },
    // c.ebreak
    Case::Word {
        name: "CEbreak",
        fields: Fields {
            d: 0,
            a: 0,
            b: 0,
            n: 0,
            m: 0,
        },
        word: 0x9002,
    },
];

// The marked cases: each holds.
#[tactic(auto, using(crate::proofs::Worked::marked_hold))]
pub(crate) fn marked() -> &'static [Case]
    ensures table { map claim_of result.now ≡ marked }
    ensures hold { AllByRecursion Holds marked }
{
    &MARKED
}

// The others: each holds too.
#[tactic(auto, using(crate::proofs::Worked::others_hold))]
pub(crate) fn others() -> &'static [Case]
    ensures table { map claim_of result.now ≡ others }
    ensures hold { AllByRecursion Holds others }
{
    &OTHERS
}

// The manuals' examples: each holds too.
#[tactic(auto, using(crate::proofs::Worked::examples_hold))]
pub(crate) fn examples() -> &'static [Case]
    ensures table { map claim_of result.now ≡ examples }
    ensures hold { AllByRecursion Holds examples }
{
    &EXAMPLES
}
