// What a word is made of.

// A field of a word. D, A, B, N and M are an instruction's: D is rd, vd or vs3; A is rs1, vs1 or a base; B is rs2, vs2 or a
// stored source; N is the constant, in units; M is bit 25 of a vector word. The last three are the operation's codes.
#[derive(Clone, Copy, PartialEq, Eq, Debug)]
pub enum Field {
    D,
    A,
    B,
    N,
    M,
    Opcode,
    Funct3,
    Funct,
}

// A part of a word: fixed bits, or some bits of a field.
#[derive(Clone, Copy)]
pub enum Part {
    // width, value
    Fixed(u32, u32),
    // the field, the lowest of its bits that stands here, how many
    Slice(Field, u32, u32),
}

// The fields of a word, each as it stands there.
#[derive(Clone, Copy, PartialEq, Eq, Debug)]
pub struct Values {
    pub d: u32,
    pub a: u32,
    pub b: u32,
    pub n: u32,
    pub m: u32,
    pub opcode: u32,
    pub funct3: u32,
    pub funct: u32,
}
