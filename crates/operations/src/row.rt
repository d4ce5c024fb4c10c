// What the table says of an operation.
ghost use Rattle.std.specs.Prelude.{◌≡◌};
ghost use Rattle.operations.specs.Permitted.{permits, allows};

use formats::kind::Kind;
use operands::regs::Class;

// Numbers that a register field may not have. Stays an enum of three: Nothing is one of the answers, and no field lacks one.
#[derive(Clone, Copy)]
pub enum Except {
    Nothing,
    Zero,
    ZeroAndTwo,
}

impl Except {
    // Whether the field may have that number.
    pub fn permits(self, number: u64) -> bool
        ensures { result ≡ permits self number }
    {
        match self {
            Except::Nothing => true,
            Except::Zero => number != 0,
            Except::ZeroAndTwo => number != 0 && number != 2,
        }
    }
}

// How an operation uses a register field: one of 0 to 31, or one of 8 to 15.
#[derive(Clone, Copy)]
pub enum Use {
    Full(Class, Except),
    Short(Class),
}

// Which numbers of a constant's range are allowed; a group size is 0, 1, 3 or 7.
#[derive(Clone, Copy)]
pub enum Allowed {
    All,
    NonZero,
    GroupSize,
}

impl Allowed {
    // Whether the constant may be that number.
    pub fn allows(self, n: i64) -> bool
        ensures { result ≡ allows self n }
    {
        match self {
            Allowed::All => true,
            Allowed::NonZero => n != 0,
            Allowed::GroupSize => matches!(n, 0 | 1 | 3 | 7),
        }
    }
}

// How an operation uses the constant: as a multiple of the unit that in units has `width` bits.
#[derive(Clone, Copy)]
pub enum Number {
    Signed {
        width: u32,
        unit: u32,
        allowed: Allowed,
    },
    Unsigned {
        width: u32,
        unit: u32,
        allowed: Allowed,
    },
}

// How an operation uses the mask bit.
#[derive(Clone, Copy)]
pub enum Masking {
    Free,
    Always,
    Never,
}

// What the destination of a vector operation may not be: one of its vector sources; v0 when it is masked.
#[derive(Clone, Copy)]
pub struct Forbids {
    pub sources: bool,
    pub mask: bool,
}

// An operation's words: format, codes and fixed bits, and how each field of the instruction is used.
#[derive(Clone, Copy)]
pub struct Form {
    pub kind: Kind,
    pub opcode: u32,
    pub funct3: u32,
    pub funct: u32,
    // ones at the bits that the operation fixes, and those bits
    pub mask: u32,
    pub bits: u32,
    // a field that the operation does not use has none
    pub d: Option<Use>,
    pub a: Option<Use>,
    pub b: Option<Use>,
    pub n: Option<Number>,
    pub m: Option<Masking>,
    pub forbids: Forbids,
}

// A row of the table.
#[derive(Clone, Copy)]
pub struct Row {
    pub name: &'static str,
    pub form: Form,
}
