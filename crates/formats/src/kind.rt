// The formats, by name.
#[derive(Clone, Copy, PartialEq, Eq, Debug)]
pub enum Kind {
    R,
    I,
    S,
    U,
    B,
    J,
    // vector arithmetic on registers
    V,
    // vector arithmetic with a constant
    VImm,
    // vector loads and stores, unit-stride
    VMem,
    Cr,
    // CR with the one register rs1
    Cr2,
    // CR with no register
    CrBare,
    Ca,
    Cj,
    Ci,
    // CI of c.lwsp
    CiLwsp,
    // CI of c.ldsp and c.fldsp
    CiLdsp,
    // CI of c.addi16sp
    CiAddi16sp,
    Ciw,
    Cb,
    // CSS of c.swsp
    CssWord,
    // CSS of c.sdsp and c.fsdsp
    CssDouble,
    // CS of c.sw
    CsWord,
    // CS of c.sd and c.fsd
    CsDouble,
    // CL of c.lw
    ClWord,
    // CL of c.ld and c.fld
    ClDouble,
}
