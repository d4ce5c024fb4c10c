// The encoders.
ghost use Rattle.std.specs.Prelude.{◌≡◌, [], ◌∷◌, None};
ghost use Rattle.bits.specs.Layout.{word};
ghost use Rattle.bits.specs.Twos.{twos};
ghost use Rattle.operands.specs.Masks.{mask_bit};
ghost use Rattle.operands.specs.Ranges.{halved};
ghost use Rattle.formats.specs.declared.faults.WideCode.TheVariants.{Opcode, Funct3, Funct7, Lumop, Mop, Nf};
ghost use Rattle.formats.specs.declared.kind.Kind.TheVariants as kinds;
ghost use Rattle.formats.specs.Layouts.{layout, size};
ghost use Rattle.formats.specs.Lawful.{check, first_wide};
ghost use Rattle.args.specs.Codes.{space, width_code, CrOp-op, CrOp-funct4, CaOp-op, CaOp-funct2, CaOp-funct6, CjOp-op, CjOp-funct3, CiOp-op, CiOp-funct3, CiwOp-op, CiwOp-funct3, CbOp-op, CbOp-funct3, CbOp-funct2, CssOp-op, CssOp-funct3, CsOp-op, CsOp-funct3, ClOp-op, ClOp-funct3};
ghost use Rattle.vector_operations.specs.Names.{VecAluOpRRR-name, VecAluOpRRRR-name, VecAluOpRRImm5-name, VecAluOpRRRImm5-name};
ghost use Rattle.vector_operations.specs.Codes.{form_named};
ghost use Rattle.encoders.specs.Encodings.{answered, fields, arithmetic, unit_stride, jumped, sp_load, loaded, sp_store, store_kind, load_kind};

use crate::faults::EncodeFault;
use args::{CaOp, CbOp, CiOp, CiwOp, CjOp, ClOp, CrOp, CsOp, CssOp, VecElementWidth};
use bits::layout::Layout;
use bits::part::{Field, Part, Values};
use formats::faults::{WideCode, narrow};
use formats::format::Format;
use jumps::operands_of::{BOperands, CjOperands, JOperands};
use memory::operands_of::{ClOperands, CsOperands};
use operands::distances::{BDistance, CjDistance, JDistance};
use operands::imms::{Imm5, Imm6, Imm12, Imm20, UImm5, Uimm6, Uimm8};
use operands::masking::VecOpMasking;
use operands::regs::{Reg, ShortReg};
use short::operands_of::{
    CaOperands, CbOperands, CiOperands, CiwOperands, Cr2Operands, CrOperands,
};
use stack::operands_of::{CiAddi16spOperands, CiLoadOperands, CssOperands};
use vector_operations::rr_imm5::VecAluOpRRImm5;
use vector_operations::rrr::VecAluOpRRR;
use vector_operations::rrr_imm5::VecAluOpRRRImm5;
use vector_operations::rrrr::VecAluOpRRRR;
use vector_operations::vector::VecAluOp;
use vectors::operands_of::{VImmOperands, VOperands};
use wide::operands_of::{IOperands, ROperands, SOperands, UOperands};

// The word of operands in two halfwords.
fn wide_word<F: Format>(o: &F::Operands) -> Result<u32, EncodeFault>
    ensures { result ≡ answered (F.fault o.now) (word (layout F.kind) (F.values o.now)) }
{
    Ok(F::encode(o)?)
}

// The word of lawful operands.
fn lawful_word<F: Format>(o: &F::Operands) -> u32
    requires lawful { F.fault o.now ≡ None }
    ensures { result ≡ word (layout F.kind) (F.values o.now) }
{
    F::encode(o).unwrap()
}

// The word of lawful operands in one halfword.
fn short_word<F: Format>(o: &F::Operands) -> u16
    requires short { size F.kind ≡ 1 }
    requires lawful { F.fault o.now ≡ None }
    ensures { result ≡ word (layout F.kind) (F.values o.now) }
{
    lawful_word::<F>(o) as u16
}

pub fn encode_r_type(
    opcode: u32,
    rd: Reg,
    funct3: u32,
    rs1: Reg,
    rs2: Reg,
    funct7: u32,
) -> Result<u32, EncodeFault>
    ensures { result ≡ answered (first_wide (check opcode 7 Opcode ∷ check funct3 3 Funct3 ∷ check funct7 7 Funct7 ∷ [])) (word (layout kinds.R) (fields rd.num.value rs1.num.value rs2.num.value 0 0 opcode funct3 funct7)) }
{
    wide_word::<wide::r::R>(&ROperands {
        opcode,
        rd: rd.num,
        funct3,
        rs1: rs1.num,
        rs2: rs2.num,
        funct7,
    })
}

pub fn encode_i_type(
    opcode: u32,
    rd: Reg,
    width: u32,
    rs1: Reg,
    offset: Imm12,
) -> Result<u32, EncodeFault>
    ensures { result ≡ answered (first_wide (check opcode 7 Opcode ∷ check width 3 Funct3 ∷ [])) (word (layout kinds.I) (fields rd.num.value rs1.num.value 0 (twos 12 offset.value) 0 opcode width 0)) }
{
    wide_word::<wide::i::I>(&IOperands {
        opcode,
        rd: rd.num,
        funct3: width,
        rs1: rs1.num,
        imm: offset,
    })
}

pub fn encode_s_type(
    opcode: u32,
    width: u32,
    base: Reg,
    src: Reg,
    offset: Imm12,
) -> Result<u32, EncodeFault>
    ensures { result ≡ answered (first_wide (check opcode 7 Opcode ∷ check width 3 Funct3 ∷ [])) (word (layout kinds.S) (fields 0 base.num.value src.num.value (twos 12 offset.value) 0 opcode width 0)) }
{
    let funct3 = width;
    wide_word::<wide::s::S>(&SOperands {
        opcode,
        funct3,
        rs1: base.num,
        rs2: src.num,
        imm: offset,
    })
}

pub fn encode_u_type(opcode: u32, rd: Reg, upper: Imm20) -> Result<u32, EncodeFault>
    ensures { result ≡ answered (first_wide (check opcode 7 Opcode ∷ [])) (word (layout kinds.U) (fields rd.num.value 0 0 (twos 20 upper.value) 0 opcode 0 0)) }
{
    wide_word::<wide::u::U>(&UOperands {
        opcode,
        rd: rd.num,
        imm: upper,
    })
}

pub fn encode_b_type(
    opcode: u32,
    funct3: u32,
    rs1: Reg,
    rs2: Reg,
    distance: BDistance,
) -> Result<u32, EncodeFault>
    ensures { result ≡ answered (first_wide (check opcode 7 Opcode ∷ check funct3 3 Funct3 ∷ [])) (word (layout kinds.B) (fields 0 rs1.num.value rs2.num.value (halved 12 distance.value) 0 opcode funct3 0)) }
{
    let (rs1, rs2) = (rs1.num, rs2.num);
    wide_word::<jumps::b::B>(&BOperands {
        opcode,
        funct3,
        rs1,
        rs2,
        distance,
    })
}

pub fn encode_j_type(opcode: u32, rd: Reg, distance: JDistance) -> Result<u32, EncodeFault>
    ensures { result ≡ answered (first_wide (check opcode 7 Opcode ∷ [])) (word (layout kinds.J) (fields rd.num.value 0 0 (halved 20 distance.value) 0 opcode 0 0)) }
{
    let rd = rd.num;
    wide_word::<jumps::j::J>(&JOperands {
        opcode,
        rd,
        distance,
    })
}

// The word of vector arithmetic on registers.
fn valu_word<O: VecAluOp>(op: O, vd: Reg, vs1: Reg, vs2: Reg, masking: VecOpMasking) -> u32
    ensures { result ≡ word (layout kinds.V) (arithmetic (form_named (O.name op)) vd.num.value vs1.num.value vs2.num.value 0 masking) }
{
    let (vd, vs1, vs2) = (vd.num, vs1.num, vs2.num);
    let funct6 = op.funct6();
    lawful_word::<vectors::v::V>(&VOperands {
        opcode: op.opcode(),
        vd,
        funct3: op.funct3(),
        vs1,
        vs2,
        masking,
        funct6,
    })
}

// The same with a constant in the place of vs1.
fn valu_imm_word<O: VecAluOp>(op: O, vd: Reg, imm: Imm5, vs2: Reg, masking: VecOpMasking) -> u32
    ensures { result ≡ word (layout kinds.VImm) (arithmetic (form_named (O.name op)) vd.num.value 0 vs2.num.value (twos 5 imm.value) masking) }
{
    let (vd, vs2) = (vd.num, vs2.num);
    let funct6 = op.funct6();
    lawful_word::<vectors::v_imm::VImm>(&VImmOperands {
        opcode: op.opcode(),
        vd,
        funct3: op.funct3(),
        imm,
        vs2,
        masking,
        funct6,
    })
}

pub fn encode_valu(op: VecAluOpRRR, vd: Reg, vs1: Reg, vs2: Reg, masking: VecOpMasking) -> u32
    ensures { result ≡ word (layout kinds.V) (arithmetic (form_named (VecAluOpRRR-name op)) vd.num.value vs1.num.value vs2.num.value 0 masking) }
{
    valu_word::<VecAluOpRRR>(op, vd, vs1, vs2, masking)
}

// Vector arithmetic with a constant in the place of vs1.
pub fn encode_valu_rr_imm(
    op: VecAluOpRRImm5,
    vd: Reg,
    imm: Imm5,
    vs2: Reg,
    masking: VecOpMasking,
) -> u32
    ensures { result ≡ word (layout kinds.VImm) (arithmetic (form_named (VecAluOpRRImm5-name op)) vd.num.value 0 vs2.num.value (twos 5 imm.value) masking) }
{
    valu_imm_word::<VecAluOpRRImm5>(op, vd, imm, vs2, masking)
}

// vs2 comes before vs1 here.
pub fn encode_valu_rrrr(op: VecAluOpRRRR, vd: Reg, vs2: Reg, vs1: Reg, masking: VecOpMasking) -> u32
    ensures { result ≡ word (layout kinds.V) (arithmetic (form_named (VecAluOpRRRR-name op)) vd.num.value vs1.num.value vs2.num.value 0 masking) }
{
    valu_word::<VecAluOpRRRR>(op, vd, vs1, vs2, masking)
}

pub fn encode_valu_rrr_imm(
    op: VecAluOpRRRImm5,
    vd: Reg,
    imm: Imm5,
    vs2: Reg,
    masking: VecOpMasking,
) -> u32
    ensures { result ≡ word (layout kinds.VImm) (arithmetic (form_named (VecAluOpRRRImm5-name op)) vd.num.value 0 vs2.num.value (twos 5 imm.value) masking) }
{
    valu_imm_word::<VecAluOpRRRImm5>(op, vd, imm, vs2, masking)
}

pub fn encode_cr_type(op: CrOp, rd: Reg, rs2: Reg) -> u16
    ensures { result ≡ word (layout kinds.Cr) (fields rd.num.value 0 rs2.num.value 0 0 (space (CrOp-op op)) 0 (CrOp-funct4 op)) }
{
    short_word::<short::cr::Cr>(&CrOperands {
        opcode: op.op().bits(),
        rs2: rs2.num,
        rd: rd.num,
        funct4: op.funct4(),
    })
}

// A CR word whose rs2 is zero; rs1 is never written to.
pub fn encode_cr2_type(op: CrOp, rs1: Reg) -> u16
    ensures { result ≡ word (layout kinds.Cr2) (fields 0 rs1.num.value 0 0 0 (space (CrOp-op op)) 0 (CrOp-funct4 op)) }
{
    let funct4 = op.funct4();
    short_word::<short::cr2::Cr2>(&Cr2Operands {
        opcode: op.op().bits(),
        rs1: rs1.num,
        funct4,
    })
}

pub fn encode_ca_type(op: CaOp, rd: ShortReg, rs2: ShortReg) -> u16
    ensures { result ≡ word (layout kinds.Ca) (fields rd.num.value 0 rs2.num.value 0 0 (space (CaOp-op op)) (CaOp-funct2 op) (CaOp-funct6 op)) }
{
    short_word::<short::ca::Ca>(&CaOperands {
        opcode: op.op().bits(),
        rs2: rs2.num,
        funct2: op.funct2(),
        rd: rd.num,
        funct6: op.funct6(),
    })
}

// A jump by an even distance.
pub fn encode_cj_type(op: CjOp, imm: Imm12) -> Result<u16, EncodeFault>
    ensures { result ≡ jumped (space (CjOp-op op)) (CjOp-funct3 op) imm.value }
{
    let distance = CjDistance::new(i64::from(imm.as_i16())).ok_or(EncodeFault::Odd(imm.as_i16()))?;
    Ok(short_word::<jumps::cj::Cj>(&CjOperands {
        opcode: op.op().bits(),
        distance,
        funct3: op.funct3(),
    }))
}

pub fn encode_ci_type(op: CiOp, rd: Reg, imm: Imm6) -> u16
    ensures { result ≡ word (layout kinds.Ci) (fields rd.num.value 0 0 (twos 6 imm.value) 0 (space (CiOp-op op)) (CiOp-funct3 op) 0) }
{
    let opcode = op.op().bits();
    short_word::<short::ci::Ci>(&CiOperands {
        opcode,
        imm,
        rd: rd.num,
        funct3: op.funct3(),
    })
}

// A load from the stack; the constant is the offset divided by the size of what is loaded.
pub fn encode_ci_sp_load(op: CiOp, rd: Reg, imm: Uimm6) -> Result<u16, EncodeFault>
    ensures { result ≡ loaded (sp_load op) (fields rd.num.value 0 0 imm.value 0 (space (CiOp-op op)) (CiOp-funct3 op) 0) }
{
    let load = CiLoadOperands {
        opcode: op.op().bits(),
        imm,
        rd: rd.num,
        funct3: op.funct3(),
    };
    match op {
        CiOp::CLwsp => Ok(short_word::<stack::ci_load::CiLwsp>(&load)),
        CiOp::CLdsp | CiOp::CFldsp => Ok(short_word::<stack::ci_load::CiLdsp>(&load)),
        _ => Err(EncodeFault::Operation),
    }
}

// The constant is a sixteenth of the offset.
pub fn encode_c_addi16sp(imm: Imm6) -> u16
    ensures { result ≡ word (layout kinds.CiAddi16sp) (fields 0 0 0 (twos 6 imm.value) 0 1 3 0) }
{
    let op = CiOp::CAddi16sp;
    short_word::<stack::ci_addi16sp::CiAddi16sp>(&CiAddi16spOperands {
        opcode: op.op().bits(),
        imm,
        funct3: op.funct3(),
    })
}

// The constant is a quarter of the offset.
pub fn encode_ciw_type(op: CiwOp, rd: ShortReg, imm: u8) -> u16
    ensures { result ≡ word (layout kinds.Ciw) (fields rd.num.value 0 0 imm 0 (space (CiwOp-op op)) (CiwOp-funct3 op) 0) }
{
    short_word::<short::ciw::Ciw>(&CiwOperands {
        opcode: op.op().bits(),
        rd: rd.num,
        imm: Uimm8::new(imm),
        funct3: op.funct3(),
    })
}

pub fn encode_cb_type(op: CbOp, rd: ShortReg, imm: Imm6) -> u16
    ensures { result ≡ word (layout kinds.Cb) (fields rd.num.value 0 0 (twos 6 imm.value) 0 (space (CbOp-op op)) (CbOp-funct3 op) (CbOp-funct2 op)) }
{
    let funct2 = op.funct2();
    short_word::<short::cb::Cb>(&CbOperands {
        opcode: op.op().bits(),
        imm,
        rd: rd.num,
        funct2,
        funct3: op.funct3(),
    })
}

// A store to the stack; the constant is the offset divided by the size of what is stored.
pub fn encode_css_type(op: CssOp, src: Reg, imm: Uimm6) -> u16
    ensures { result ≡ word (layout (sp_store op)) (fields 0 0 src.num.value imm.value 0 (space (CssOp-op op)) (CssOp-funct3 op) 0) }
{
    let store = CssOperands {
        opcode: op.op().bits(),
        src: src.num,
        imm,
        funct3: op.funct3(),
    };
    match op {
        CssOp::CSwsp => short_word::<stack::css::CssWord>(&store),
        CssOp::CSdsp | CssOp::CFsdsp => short_word::<stack::css::CssDouble>(&store),
    }
}

// A store by a base register; the constant is the offset divided by the size of what is stored.
pub fn encode_cs_type(op: CsOp, src: ShortReg, base: ShortReg, imm: UImm5) -> u16
    ensures { result ≡ word (layout (store_kind op)) (fields 0 base.num.value src.num.value imm.value 0 (space (CsOp-op op)) (CsOp-funct3 op) 0) }
{
    let (src, base) = (src.num, base.num);
    let store = CsOperands {
        opcode: op.op().bits(),
        src,
        base,
        imm,
        funct3: op.funct3(),
    };
    match op {
        CsOp::CSw => short_word::<memory::cs::CsWord>(&store),
        CsOp::CSd | CsOp::CFsd => short_word::<memory::cs::CsDouble>(&store),
    }
}

// A load by a base register; the constant is the offset divided by the size of what is loaded.
pub fn encode_cl_type(op: ClOp, dest: ShortReg, base: ShortReg, imm: UImm5) -> u16
    ensures { result ≡ word (layout (load_kind op)) (fields dest.num.value base.num.value 0 imm.value 0 (space (ClOp-op op)) (ClOp-funct3 op) 0) }
{
    let (rd, base) = (dest.num, base.num);
    let load = ClOperands {
        opcode: op.op().bits(),
        rd,
        base,
        imm,
        funct3: op.funct3(),
    };
    match op {
        ClOp::CLw => short_word::<memory::cl::ClWord>(&load),
        ClOp::CLd | ClOp::CFld => short_word::<memory::cl::ClDouble>(&load),
    }
}

// A unit-stride vector load or store, from bit 0 up: opcode, vd or vs3, width, rs1, lumop or sumop, vm, mop, mew, nf. Here lumop or sumop is
// the field b, mop the field n and nf the field funct.
const UNIT_STRIDE: [Part; 9] = [
    Part::Slice(Field::Opcode, 0, 7),
    Part::Slice(Field::D, 0, 5),
    Part::Slice(Field::Funct3, 0, 3),
    Part::Slice(Field::A, 0, 5),
    Part::Slice(Field::B, 0, 5),
    Part::Slice(Field::M, 0, 1),
    Part::Slice(Field::N, 0, 2),
    Part::Fixed(1, 0),
    Part::Slice(Field::Funct, 0, 3),
];

// A unit-stride vector load.
pub fn encode_vmem_load(
    opcode: u32,
    vd: Reg,
    width: VecElementWidth,
    rs1: Reg,
    lumop: u32,
    masking: VecOpMasking,
    mop: u32,
    nf: u32,
) -> Result<u32, EncodeFault>
    ensures { result ≡ answered (first_wide (check opcode 7 Opcode ∷ check lumop 5 Lumop ∷ check mop 2 Mop ∷ check nf 3 Nf ∷ [])) (word unit_stride (fields vd.num.value rs1.num.value lumop mop (mask_bit masking) opcode (width_code width) nf)) }
{
    narrow(WideCode::Opcode(opcode), 7)?;
    narrow(WideCode::Lumop(lumop), 5)?;
    narrow(WideCode::Mop(mop), 2)?;
    narrow(WideCode::Nf(nf), 3)?;
    let load = Layout {
        parts: &UNIT_STRIDE,
    };
    Ok(load.join(&Values {
        d: vd.num.value(),
        a: rs1.num.value(),
        b: lumop,
        n: mop,
        m: masking.encode(),
        opcode,
        funct3: width.code(),
        funct: nf,
    }))
}

// A unit-stride vector store: the load's word, with the stored register for the loaded one.
pub fn encode_vmem_store(
    opcode: u32,
    vs3: Reg,
    width: VecElementWidth,
    rs1: Reg,
    sumop: u32,
    masking: VecOpMasking,
    mop: u32,
    nf: u32,
) -> Result<u32, EncodeFault>
    ensures { result ≡ answered (first_wide (check opcode 7 Opcode ∷ check sumop 5 Lumop ∷ check mop 2 Mop ∷ check nf 3 Nf ∷ [])) (word unit_stride (fields vs3.num.value rs1.num.value sumop mop (mask_bit masking) opcode (width_code width) nf)) }
{
    encode_vmem_load(opcode, vs3, width, rs1, sumop, masking, mop, nf)
}
