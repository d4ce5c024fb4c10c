// The first word of a line: which call it is.
ghost use Rattle.std.specs.Prelude.{◌≡◌};
ghost use Rattle.std.specs.List.{find};
ghost use Rattle.std.specs.Str.{bytes_eq};
ghost use Rattle.scripts.specs.Verbs.{name, verb_of};

#[derive(Clone, Copy, PartialEq, Eq, Debug)]
pub enum Verb {
    Emit,
    Constant,
    Jump,
    Bind,
    Try,
    Keep,
    GiveUp,
    Seal,
    Change,
    Value,
}

const VERBS: [Verb; 10] = [
    Verb::Emit,
    Verb::Constant,
    Verb::Jump,
    Verb::Bind,
    Verb::Try,
    Verb::Keep,
    Verb::GiveUp,
    Verb::Seal,
    Verb::Change,
    Verb::Value,
];

impl Verb {
    // The word.
    fn name(self) -> &'static str
        ensures { result.now ≡ name self }
    {
        match self {
            Verb::Emit => "emit",
            Verb::Constant => "constant",
            Verb::Jump => "jump",
            Verb::Bind => "bind",
            Verb::Try => "try",
            Verb::Keep => "keep",
            Verb::GiveUp => "giveup",
            Verb::Seal => "seal",
            Verb::Change => "change",
            Verb::Value => "value",
        }
    }

    // The call of that name.
    pub fn by_name(word: &[u8]) -> Option<Verb>
        ensures { result ≡ verb_of word.now }
    {
        VERBS
            .iter()
            .copied()
            .find(|verb| verb.name().as_bytes() == word)
    }
}
