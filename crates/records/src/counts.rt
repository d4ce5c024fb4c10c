// How far a program has come.

// How many halfwords, labels, jumps and slots there are so far. A place has 32 bits, so that the distance between any two fits 64 bits with a sign.
#[derive(Clone, Copy, PartialEq, Eq, Default, Debug)]
pub struct Counts {
    pub used: u32,
    pub labels: usize,
    pub jumps: usize,
    pub slots: usize,
}
