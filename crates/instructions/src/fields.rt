// An operation's fields, and why they are refused.
use bits::part::Field;

// Registers d, a and b, the constant n, and m, which is 1 when masked; a field that the operation does not use is 0.
#[derive(Clone, Copy, PartialEq, Eq, Debug)]
pub struct Fields {
    pub d: i64,
    pub a: i64,
    pub b: i64,
    pub n: i64,
    pub m: i64,
}

// Why no instruction is built.
#[derive(Clone, Copy, PartialEq, Eq, Debug)]
pub enum BuildFault {
    // the operation is a jump, which has a distance only once it is placed
    Jump,
    // a field that the operation does not use is not 0
    Unused(Field, i64),
    // a register outside those that the operation takes there
    Register(Field, i64),
    // the constant is out of range, or no multiple of its unit
    Constant(i64),
    // the mask bit is neither 0 nor 1
    MaskBit(i64),
    // in range, but a value that the operation does not take there
    Forbidden(Field, i64),
    // the operation is always masked, or never
    Masked(i64),
    // the destination is the source in that field, or v0, the mask (field M)
    Overlap(Field),
}
