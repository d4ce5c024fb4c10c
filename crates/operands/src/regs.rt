// Registers.
ghost use Rattle.std.specs.Prelude.{◌≡◌, ◌+◌, ◌^◌, ◌<◌, ◌≤◌, ◌⊎◌, MatchOption, MatchResult};
ghost use Rattle.operands.specs.declared.regs.Class.TheVariants.{Integer, Float, Vector};

use crate::range::{OutOfRange, fits};

// The class of a register.
#[derive(Clone, Copy, PartialEq, Eq, Debug)]
pub enum Class {
    Integer,
    Float,
    Vector,
}

// A register's number as WIDTH bits write it.
// Stays: a type of its own beside Unsigned, so that no constant is taken for a register's number.
#[derive(Clone, Copy, PartialEq, Eq, Debug)]
pub struct Num<const WIDTH: u32> {
    value: u32,
    ghost ok: { value < 2 ^ WIDTH },
}

// A register's number, 0 to 31.
pub type RegNum = Num<5>;

// A short register's number, 8 to 15, kept as it is written: that number less 8.
pub type ShortNum = Num<3>;

impl<const WIDTH: u32> TryFrom<u32> for Num<WIDTH> {
    type Error = OutOfRange;

    ghost try_from_gives = { λ n r. MatchResult r (λ m. m.value ≡ n) (λ _. 2 ^ WIDTH ≤ n) };

    fn try_from(value: u32) -> Result<Num<WIDTH>, OutOfRange> {
        if fits(WIDTH, value) {
            Ok(Num { value })
        } else {
            Err(OutOfRange)
        }
    }
}

impl<const WIDTH: u32> Num<WIDTH> {
    // The number that these bits write.
    // Stays: it asks what Unsigned::of_bits asks, since a format holds a plain field of a word and the fact that it fits.
    pub fn of_bits(value: u32) -> Num<WIDTH>
        requires { value < 2 ^ WIDTH }
        ensures { result.value ≡ value }
    {
        Num { value }
    }

    pub fn value(&self) -> u32
        ensures is { result ≡ self.now.value }
        ensures small { result < 2 ^ WIDTH }
    {
        self.value
    }
}

impl RegNum {
    pub fn new(value: u32) -> Option<RegNum>
        ensures { MatchOption result (32 ≤ value) (λ n. n.value ≡ value) }
    {
        RegNum::try_from(value).ok()
    }
}

impl ShortNum {
    // The short number that is written for the register `number`.
    pub fn new(number: u32) -> Option<ShortNum>
        ensures { MatchOption result ((number < 8) ⊎ (16 ≤ number)) (λ n. n.value + 8 ≡ number) }
    {
        if (8..16).contains(&number) {
            Some(Num { value: number - 8 })
        } else {
            None
        }
    }
}

// A register: its class and its number.
#[derive(Clone, Copy, PartialEq, Eq, Debug)]
pub struct Register<const WIDTH: u32> {
    pub class: Class,
    pub num: Num<WIDTH>,
}

pub type Reg = Register<5>;

// A register that a short place can name.
pub type ShortReg = Register<3>;

impl TryFrom<Reg> for ShortReg {
    type Error = OutOfRange;

    ghost try_from_gives = { λ g r. MatchResult r (λ s. (s.class ≡ g.class) × (s.num.value + 8 ≡ g.num.value)) (λ _. (g.num.value < 8) ⊎ (16 ≤ g.num.value)) };

    fn try_from(reg: Reg) -> Result<ShortReg, OutOfRange> {
        let num = ShortNum::new(reg.num.value).ok_or(OutOfRange)?;
        Ok(Register {
            class: reg.class,
            num,
        })
    }
}

impl Reg {
    pub fn short(&self) -> Option<ShortReg>
        ensures { MatchOption result ((self.now.num.value < 8) ⊎ (16 ≤ self.now.num.value)) (λ s. (s.class ≡ self.now.class) × (s.num.value + 8 ≡ self.now.num.value)) }
    {
        ShortReg::try_from(*self).ok()
    }
}

fn reg_of(class: Class, enc: u32) -> Option<Reg>
    ensures { MatchOption result (32 ≤ enc) (λ g. (g.class ≡ class) × (g.num.value ≡ enc)) }
{
    let num = RegNum::new(enc)?;
    Some(Register { class, num })
}

pub fn x_reg(enc: u32) -> Option<Reg>
    ensures { MatchOption result (32 ≤ enc) (λ g. (g.class ≡ Integer) × (g.num.value ≡ enc)) }
{
    reg_of(Class::Integer, enc)
}

pub fn f_reg(enc: u32) -> Option<Reg>
    ensures { MatchOption result (32 ≤ enc) (λ g. (g.class ≡ Float) × (g.num.value ≡ enc)) }
{
    reg_of(Class::Float, enc)
}

pub fn v_reg(enc: u32) -> Option<Reg>
    ensures { MatchOption result (32 ≤ enc) (λ g. (g.class ≡ Vector) × (g.num.value ≡ enc)) }
{
    reg_of(Class::Vector, enc)
}

fn integer_reg(number: u32) -> Reg
    requires { number < 32 }
    ensures { (result.class ≡ Integer) × (result.num.value ≡ number) }
{
    Register {
        class: Class::Integer,
        num: Num { value: number },
    }
}

// x0
pub fn zero_reg() -> Reg
    ensures { (result.class ≡ Integer) × (result.num.value ≡ 0) }
{
    integer_reg(0)
}

// x2
pub fn stack_reg() -> Reg
    ensures { (result.class ≡ Integer) × (result.num.value ≡ 2) }
{
    integer_reg(2)
}

// The five bits that name the register.
pub fn reg_to_gpr_num(m: Reg) -> u32
    ensures { result ≡ m.num.value }
{
    m.num.value()
}

// The three bits that name the register, which is one of 8 to 15.
pub fn reg_to_compressed_gpr_num(short: ShortReg) -> u32
    ensures { result ≡ short.num.value }
{
    short.num.value()
}
