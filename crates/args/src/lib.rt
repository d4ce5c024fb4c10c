//! The operations of the C extension, by the shape of their words, with their codes; and the widths of vector elements.
// Stays: each function is one table of the manual, and no code is generic over the codes, so no trait joins them.
#![tactic(auto)]

ghost use Rattle.std.specs.Prelude.{◌≡◌, ◌<◌};
ghost use Rattle.args.specs.Codes.{space, width_code, CrOp-op, CrOp-funct4, CaOp-op, CaOp-funct2, CaOp-funct6, CjOp-op, CjOp-funct3, CiOp-op, CiOp-funct3, CiwOp-op, CiwOp-funct3, CbOp-op, CbOp-funct3, CbOp-funct2, CssOp-op, CssOp-funct3, CsOp-op, CsOp-funct3, ClOp-op, ClOp-funct3};

// The quadrant of a compressed word: its two lowest bits.
#[derive(Clone, Copy, PartialEq, Eq, Debug)]
pub enum COpcodeSpace {
    C0,
    C1,
    C2,
}

impl COpcodeSpace {
    pub fn bits(&self) -> u32
        ensures is { result ≡ space self.now }
        ensures narrow { result < 4 }
    {
        match self {
            COpcodeSpace::C0 => 0b00,
            COpcodeSpace::C1 => 0b01,
            COpcodeSpace::C2 => 0b10,
        }
    }
}

#[derive(Clone, Copy, PartialEq, Eq, Debug)]
pub enum CrOp {
    CMv,
    CAdd,
    CJr,
    CJalr,
    CEbreak,
}

impl CrOp {
    pub fn op(&self) -> COpcodeSpace
        ensures { result ≡ CrOp-op self.now }
    {
        match self {
            CrOp::CMv | CrOp::CAdd | CrOp::CJr | CrOp::CJalr | CrOp::CEbreak => COpcodeSpace::C2,
        }
    }

    pub fn funct4(&self) -> u32
        ensures is { result ≡ CrOp-funct4 self.now }
        ensures narrow { result < 16 }
    {
        match self {
            CrOp::CMv | CrOp::CJr => 0b1000,
            CrOp::CAdd | CrOp::CJalr | CrOp::CEbreak => 0b1001,
        }
    }
}

#[derive(Clone, Copy, PartialEq, Eq, Debug)]
pub enum CaOp {
    CAnd,
    COr,
    CXor,
    CSub,
    CAddw,
    CSubw,
    CMul,
}

impl CaOp {
    pub fn op(&self) -> COpcodeSpace
        ensures { result ≡ CaOp-op self.now }
    {
        match self {
            CaOp::CAnd
            | CaOp::COr
            | CaOp::CXor
            | CaOp::CSub
            | CaOp::CAddw
            | CaOp::CSubw
            | CaOp::CMul => COpcodeSpace::C1,
        }
    }

    pub fn funct2(&self) -> u32
        ensures is { result ≡ CaOp-funct2 self.now }
        ensures narrow { result < 4 }
    {
        match self {
            CaOp::CAnd => 0b11,
            CaOp::COr | CaOp::CMul => 0b10,
            CaOp::CXor | CaOp::CAddw => 0b01,
            CaOp::CSub | CaOp::CSubw => 0b00,
        }
    }

    pub fn funct6(&self) -> u32
        ensures is { result ≡ CaOp-funct6 self.now }
        ensures narrow { result < 64 }
    {
        match self {
            CaOp::CAnd | CaOp::COr | CaOp::CXor | CaOp::CSub => 0b100011,
            CaOp::CAddw | CaOp::CSubw | CaOp::CMul => 0b100111,
        }
    }
}

#[derive(Clone, Copy, PartialEq, Eq, Debug)]
pub enum CjOp {
    CJ,
}

impl CjOp {
    pub fn op(&self) -> COpcodeSpace
        ensures { result ≡ CjOp-op self.now }
    {
        match self {
            CjOp::CJ => COpcodeSpace::C1,
        }
    }

    pub fn funct3(&self) -> u32
        ensures is { result ≡ CjOp-funct3 self.now }
        ensures narrow { result < 8 }
    {
        match self {
            CjOp::CJ => 0b101,
        }
    }
}

#[derive(Clone, Copy, PartialEq, Eq, Debug)]
pub enum CiOp {
    CAddi,
    CAddiw,
    CAddi16sp,
    CLi,
    CLui,
    CSlli,
    CLwsp,
    CLdsp,
    CFldsp,
}

impl CiOp {
    pub fn op(&self) -> COpcodeSpace
        ensures { result ≡ CiOp-op self.now }
    {
        match self {
            CiOp::CAddi | CiOp::CAddiw | CiOp::CAddi16sp | CiOp::CLi | CiOp::CLui =>
                COpcodeSpace::C1,
            CiOp::CSlli | CiOp::CLwsp | CiOp::CLdsp | CiOp::CFldsp => COpcodeSpace::C2,
        }
    }

    pub fn funct3(&self) -> u32
        ensures is { result ≡ CiOp-funct3 self.now }
        ensures narrow { result < 8 }
    {
        match self {
            CiOp::CAddi | CiOp::CSlli => 0b000,
            CiOp::CAddiw | CiOp::CFldsp => 0b001,
            CiOp::CAddi16sp | CiOp::CLui | CiOp::CLdsp => 0b011,
            CiOp::CLi | CiOp::CLwsp => 0b010,
        }
    }
}

#[derive(Clone, Copy, PartialEq, Eq, Debug)]
pub enum CiwOp {
    CAddi4spn,
}

impl CiwOp {
    pub fn op(&self) -> COpcodeSpace
        ensures { result ≡ CiwOp-op self.now }
    {
        match self {
            CiwOp::CAddi4spn => COpcodeSpace::C0,
        }
    }

    pub fn funct3(&self) -> u32
        ensures is { result ≡ CiwOp-funct3 self.now }
        ensures narrow { result < 8 }
    {
        match self {
            CiwOp::CAddi4spn => 0b000,
        }
    }
}

#[derive(Clone, Copy, PartialEq, Eq, Debug)]
pub enum CbOp {
    CSrli,
    CSrai,
    CAndi,
}

impl CbOp {
    pub fn op(&self) -> COpcodeSpace
        ensures { result ≡ CbOp-op self.now }
    {
        match self {
            CbOp::CSrli | CbOp::CSrai | CbOp::CAndi => COpcodeSpace::C1,
        }
    }

    pub fn funct3(&self) -> u32
        ensures is { result ≡ CbOp-funct3 self.now }
        ensures narrow { result < 8 }
    {
        match self {
            CbOp::CSrli | CbOp::CSrai | CbOp::CAndi => 0b100,
        }
    }

    pub fn funct2(&self) -> u32
        ensures is { result ≡ CbOp-funct2 self.now }
        ensures narrow { result < 4 }
    {
        match self {
            CbOp::CSrli => 0b00,
            CbOp::CSrai => 0b01,
            CbOp::CAndi => 0b10,
        }
    }
}

#[derive(Clone, Copy, PartialEq, Eq, Debug)]
pub enum CssOp {
    CFsdsp,
    CSwsp,
    CSdsp,
}

impl CssOp {
    pub fn op(&self) -> COpcodeSpace
        ensures { result ≡ CssOp-op self.now }
    {
        match self {
            CssOp::CFsdsp | CssOp::CSwsp | CssOp::CSdsp => COpcodeSpace::C2,
        }
    }

    pub fn funct3(&self) -> u32
        ensures is { result ≡ CssOp-funct3 self.now }
        ensures narrow { result < 8 }
    {
        match self {
            CssOp::CFsdsp => 0b101,
            CssOp::CSwsp => 0b110,
            CssOp::CSdsp => 0b111,
        }
    }
}

#[derive(Clone, Copy, PartialEq, Eq, Debug)]
pub enum CsOp {
    CFsd,
    CSw,
    CSd,
}

impl CsOp {
    pub fn op(&self) -> COpcodeSpace
        ensures { result ≡ CsOp-op self.now }
    {
        match self {
            CsOp::CFsd | CsOp::CSw | CsOp::CSd => COpcodeSpace::C0,
        }
    }

    pub fn funct3(&self) -> u32
        ensures is { result ≡ CsOp-funct3 self.now }
        ensures narrow { result < 8 }
    {
        match self {
            CsOp::CFsd => 0b101,
            CsOp::CSw => 0b110,
            CsOp::CSd => 0b111,
        }
    }
}

#[derive(Clone, Copy, PartialEq, Eq, Debug)]
pub enum ClOp {
    CFld,
    CLw,
    CLd,
}

impl ClOp {
    pub fn op(&self) -> COpcodeSpace
        ensures { result ≡ ClOp-op self.now }
    {
        match self {
            ClOp::CFld | ClOp::CLw | ClOp::CLd => COpcodeSpace::C0,
        }
    }

    pub fn funct3(&self) -> u32
        ensures is { result ≡ ClOp-funct3 self.now }
        ensures narrow { result < 8 }
    {
        match self {
            ClOp::CFld => 0b001,
            ClOp::CLw => 0b010,
            ClOp::CLd => 0b011,
        }
    }
}

// The width of the elements of a vector in memory.
#[derive(Clone, Copy, PartialEq, Eq, Debug)]
pub enum VecElementWidth {
    E8,
    E16,
    E32,
    E64,
}

impl VecElementWidth {
    // The width field of a vector load or store.
    pub fn code(&self) -> u32
        ensures is { result ≡ width_code self.now }
        ensures narrow { result < 8 }
    {
        match self {
            VecElementWidth::E8 => 0b000,
            VecElementWidth::E16 => 0b101,
            VecElementWidth::E32 => 0b110,
            VecElementWidth::E64 => 0b111,
        }
    }
}
