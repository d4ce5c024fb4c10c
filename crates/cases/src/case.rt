// A worked case: what a call is to answer.
ghost use Rattle.std.specs.Prelude.{◌≡◌};
ghost use Rattle.cases.specs.Claims.{holds, claim_of};

use crate::made::{Parts, generated, refusal_of, word_made};
use instructions::fields::Fields;

#[derive(Clone, Copy)]
pub enum Case {
    // the operation of that name with these fields has this word
    Word {
        name: &'static str,
        fields: Fields,
        word: u32,
    },
    // these fields are refused with this number
    Refused {
        name: &'static str,
        fields: Fields,
        number: u8,
    },
    // the value is made of these parts
    Pair {
        value: i64,
        parts: Parts,
    },
    // no pair makes the value
    NoPair {
        value: i64,
    },
}

impl Case {
    // Whether the library's calls answer so.
    pub(crate) fn holds(&self) -> bool
        ensures { result ≡ holds (claim_of self.now) }
    {
        match *self {
            Case::Word { name, fields, word } => word_made(name.as_bytes(), fields) == Some(word),
            Case::Refused {
                name,
                fields,
                number,
            } => refusal_of(name.as_bytes(), fields) == Some(number),
            Case::Pair { value, parts } => generated(value) == Some(parts),
            Case::NoPair { value } => generated(value).is_none(),
        }
    }
}
