// The encoders by name.
ghost use Rattle.std.specs.Prelude.{◌≡◌};
ghost use Rattle.replay.specs.Lines.{encoders, answer_by};

use crate::answer::Answer;
use crate::name::Named;
use crate::{short_words, wide_words};

#[derive(Clone, Copy)]
pub enum Encoder {
    RType,
    IType,
    SType,
    Valu,
    ValuRrrr,
    ValuRrImm,
    ValuRrrImm,
    VmemLoad,
    VmemStore,
    CrType,
    Cr2Type,
    CaType,
    CjType,
    CiType,
    CiSpLoad,
    CAddi16sp,
    CiwType,
    CbType,
    CssType,
    CsType,
    ClType,
}

impl Named for Encoder {
    ghost names = { encoders };

    fn names() -> &'static [(&'static str, Encoder)] {
        &[
            ("encode_r_type", Encoder::RType),
            ("encode_i_type", Encoder::IType),
            ("encode_s_type", Encoder::SType),
            ("encode_valu", Encoder::Valu),
            ("encode_valu_rrrr", Encoder::ValuRrrr),
            ("encode_valu_rr_imm", Encoder::ValuRrImm),
            ("encode_valu_rrr_imm", Encoder::ValuRrrImm),
            ("encode_vmem_load", Encoder::VmemLoad),
            ("encode_vmem_store", Encoder::VmemStore),
            ("encode_cr_type", Encoder::CrType),
            ("encode_cr2_type", Encoder::Cr2Type),
            ("encode_ca_type", Encoder::CaType),
            ("encode_cj_type", Encoder::CjType),
            ("encode_ci_type", Encoder::CiType),
            ("encode_ci_sp_load", Encoder::CiSpLoad),
            ("encode_c_addi16sp", Encoder::CAddi16sp),
            ("encode_ciw_type", Encoder::CiwType),
            ("encode_cb_type", Encoder::CbType),
            ("encode_css_type", Encoder::CssType),
            ("encode_cs_type", Encoder::CsType),
            ("encode_cl_type", Encoder::ClType),
        ]
    }
}

impl Encoder {
    // What it answers to the operands of the line.
    pub(crate) fn answer(self, line: &[u8]) -> Option<Answer>
        ensures { result ≡ answer_by self line.now }
    {
        // Stays: one arm an encoder, since a table would hand out function pointers, which the gate refuses.
        match self {
            Encoder::RType => wide_words::r(line),
            Encoder::IType => wide_words::i(line),
            Encoder::SType => wide_words::s(line),
            Encoder::Valu => wide_words::valu(line),
            Encoder::ValuRrrr => wide_words::valu_rrrr(line),
            Encoder::ValuRrImm => wide_words::valu_rr_imm(line),
            Encoder::ValuRrrImm => wide_words::valu_rrr_imm(line),
            Encoder::VmemLoad => wide_words::vmem_load(line),
            Encoder::VmemStore => wide_words::vmem_store(line),
            Encoder::CrType => short_words::cr(line),
            Encoder::Cr2Type => short_words::cr2(line),
            Encoder::CaType => short_words::ca(line),
            Encoder::CjType => short_words::cj(line),
            Encoder::CiType => short_words::ci(line),
            Encoder::CiSpLoad => short_words::ci_sp(line),
            Encoder::CAddi16sp => short_words::addi16sp(line),
            Encoder::CiwType => short_words::ciw(line),
            Encoder::CbType => short_words::cb(line),
            Encoder::CssType => short_words::css(line),
            Encoder::CsType => short_words::cs(line),
            Encoder::ClType => short_words::cl(line),
        }
    }
}
