// The operations of vector arithmetic by name.
ghost use Rattle.std.specs.Prelude.{◌≡◌};
ghost use Rattle.replay.specs.VectorNames.{rrr_ops, rrrr_ops, rr_imm5_ops, rrr_imm5_ops};

use crate::name::Named;
use vector_operations::rr_imm5::VecAluOpRRImm5;
use vector_operations::rrr::VecAluOpRRR;
use vector_operations::rrr_imm5::VecAluOpRRRImm5;
use vector_operations::rrrr::VecAluOpRRRR;

const RRR: [(&'static str, VecAluOpRRR); 116] = [
    ("VaddVV", VecAluOpRRR::VaddVV),
    ("VaddVX", VecAluOpRRR::VaddVX),
    ("VfaddVV", VecAluOpRRR::VfaddVV),
    ("VfaddVF", VecAluOpRRR::VfaddVF),
    ("VsubVV", VecAluOpRRR::VsubVV),
    ("VsubVX", VecAluOpRRR::VsubVX),
    ("VfsubVV", VecAluOpRRR::VfsubVV),
    ("VfsubVF", VecAluOpRRR::VfsubVF),
    ("VrsubVX", VecAluOpRRR::VrsubVX),
    ("VmulVV", VecAluOpRRR::VmulVV),
    ("VmulVX", VecAluOpRRR::VmulVX),
    ("VmulhVV", VecAluOpRRR::VmulhVV),
    ("VmulhVX", VecAluOpRRR::VmulhVX),
    ("VmulhuVV", VecAluOpRRR::VmulhuVV),
    ("VmulhuVX", VecAluOpRRR::VmulhuVX),
    ("VfmulVV", VecAluOpRRR::VfmulVV),
    ("VfmulVF", VecAluOpRRR::VfmulVF),
    ("VsmulVV", VecAluOpRRR::VsmulVV),
    ("VsmulVX", VecAluOpRRR::VsmulVX),
    ("VsllVV", VecAluOpRRR::VsllVV),
    ("VsllVX", VecAluOpRRR::VsllVX),
    ("VsrlVV", VecAluOpRRR::VsrlVV),
    ("VsrlVX", VecAluOpRRR::VsrlVX),
    ("VsraVV", VecAluOpRRR::VsraVV),
    ("VsraVX", VecAluOpRRR::VsraVX),
    ("VandVV", VecAluOpRRR::VandVV),
    ("VandVX", VecAluOpRRR::VandVX),
    ("VorVV", VecAluOpRRR::VorVV),
    ("VorVX", VecAluOpRRR::VorVX),
    ("VxorVV", VecAluOpRRR::VxorVV),
    ("VxorVX", VecAluOpRRR::VxorVX),
    ("VminuVV", VecAluOpRRR::VminuVV),
    ("VminuVX", VecAluOpRRR::VminuVX),
    ("VredminuVS", VecAluOpRRR::VredminuVS),
    ("VminVV", VecAluOpRRR::VminVV),
    ("VminVX", VecAluOpRRR::VminVX),
    ("VmaxuVV", VecAluOpRRR::VmaxuVV),
    ("VmaxuVX", VecAluOpRRR::VmaxuVX),
    ("VredmaxuVS", VecAluOpRRR::VredmaxuVS),
    ("VmaxVV", VecAluOpRRR::VmaxVV),
    ("VmaxVX", VecAluOpRRR::VmaxVX),
    ("VslidedownVX", VecAluOpRRR::VslidedownVX),
    ("VfrsubVF", VecAluOpRRR::VfrsubVF),
    ("VmergeVVM", VecAluOpRRR::VmergeVVM),
    ("VmergeVXM", VecAluOpRRR::VmergeVXM),
    ("VfmergeVFM", VecAluOpRRR::VfmergeVFM),
    ("VcompressVM", VecAluOpRRR::VcompressVM),
    ("VfdivVV", VecAluOpRRR::VfdivVV),
    ("VfdivVF", VecAluOpRRR::VfdivVF),
    ("VsadduVV", VecAluOpRRR::VsadduVV),
    ("VsadduVX", VecAluOpRRR::VsadduVX),
    ("VfrdivVF", VecAluOpRRR::VfrdivVF),
    ("VsaddVV", VecAluOpRRR::VsaddVV),
    ("VsaddVX", VecAluOpRRR::VsaddVX),
    ("VfminVV", VecAluOpRRR::VfminVV),
    ("VfmaxVV", VecAluOpRRR::VfmaxVV),
    ("VssubuVV", VecAluOpRRR::VssubuVV),
    ("VssubuVX", VecAluOpRRR::VssubuVX),
    ("VssubVV", VecAluOpRRR::VssubVV),
    ("VssubVX", VecAluOpRRR::VssubVX),
    ("VfsgnjVV", VecAluOpRRR::VfsgnjVV),
    ("VfsgnjVF", VecAluOpRRR::VfsgnjVF),
    ("VfsgnjnVV", VecAluOpRRR::VfsgnjnVV),
    ("VfsgnjxVV", VecAluOpRRR::VfsgnjxVV),
    ("VrgatherVV", VecAluOpRRR::VrgatherVV),
    ("VrgatherVX", VecAluOpRRR::VrgatherVX),
    ("VwadduVV", VecAluOpRRR::VwadduVV),
    ("VwadduVX", VecAluOpRRR::VwadduVX),
    ("VwaddVV", VecAluOpRRR::VwaddVV),
    ("VwaddVX", VecAluOpRRR::VwaddVX),
    ("VwsubuVV", VecAluOpRRR::VwsubuVV),
    ("VwsubuVX", VecAluOpRRR::VwsubuVX),
    ("VwsubVV", VecAluOpRRR::VwsubVV),
    ("VwsubVX", VecAluOpRRR::VwsubVX),
    ("VwadduWV", VecAluOpRRR::VwadduWV),
    ("VwadduWX", VecAluOpRRR::VwadduWX),
    ("VwaddWV", VecAluOpRRR::VwaddWV),
    ("VwaddWX", VecAluOpRRR::VwaddWX),
    ("VwsubuWV", VecAluOpRRR::VwsubuWV),
    ("VwsubuWX", VecAluOpRRR::VwsubuWX),
    ("VwsubWV", VecAluOpRRR::VwsubWV),
    ("VwsubWX", VecAluOpRRR::VwsubWX),
    ("VmseqVV", VecAluOpRRR::VmseqVV),
    ("VmseqVX", VecAluOpRRR::VmseqVX),
    ("VmfeqVV", VecAluOpRRR::VmfeqVV),
    ("VmfeqVF", VecAluOpRRR::VmfeqVF),
    ("VmsneVV", VecAluOpRRR::VmsneVV),
    ("VmsneVX", VecAluOpRRR::VmsneVX),
    ("VmfleVV", VecAluOpRRR::VmfleVV),
    ("VmfleVF", VecAluOpRRR::VmfleVF),
    ("VmandMM", VecAluOpRRR::VmandMM),
    ("VmsltuVV", VecAluOpRRR::VmsltuVV),
    ("VmsltuVX", VecAluOpRRR::VmsltuVX),
    ("VmorMM", VecAluOpRRR::VmorMM),
    ("VmsltVV", VecAluOpRRR::VmsltVV),
    ("VmsltVX", VecAluOpRRR::VmsltVX),
    ("VmfltVV", VecAluOpRRR::VmfltVV),
    ("VmfltVF", VecAluOpRRR::VmfltVF),
    ("VmsleuVV", VecAluOpRRR::VmsleuVV),
    ("VmsleuVX", VecAluOpRRR::VmsleuVX),
    ("VmfneVV", VecAluOpRRR::VmfneVV),
    ("VmfneVF", VecAluOpRRR::VmfneVF),
    ("VmsleVV", VecAluOpRRR::VmsleVV),
    ("VmsleVX", VecAluOpRRR::VmsleVX),
    ("VmfgtVF", VecAluOpRRR::VmfgtVF),
    ("VmnandMM", VecAluOpRRR::VmnandMM),
    ("VmsgtuVX", VecAluOpRRR::VmsgtuVX),
    ("VmnorMM", VecAluOpRRR::VmnorMM),
    ("VmsgtVX", VecAluOpRRR::VmsgtVX),
    ("VmfgeVF", VecAluOpRRR::VmfgeVF),
    ("VandnVV", VecAluOpRRR::VandnVV),
    ("VandnVX", VecAluOpRRR::VandnVX),
    ("VrorVV", VecAluOpRRR::VrorVV),
    ("VrorVX", VecAluOpRRR::VrorVX),
    ("VrolVV", VecAluOpRRR::VrolVV),
    ("VrolVX", VecAluOpRRR::VrolVX),
];

const RRRR: [(&'static str, VecAluOpRRRR); 13] = [
    ("VmaccVV", VecAluOpRRRR::VmaccVV),
    ("VmaccVX", VecAluOpRRRR::VmaccVX),
    ("VnmsacVV", VecAluOpRRRR::VnmsacVV),
    ("VnmsacVX", VecAluOpRRRR::VnmsacVX),
    ("VfmaccVV", VecAluOpRRRR::VfmaccVV),
    ("VfmaccVF", VecAluOpRRRR::VfmaccVF),
    ("VfnmaccVV", VecAluOpRRRR::VfnmaccVV),
    ("VfnmaccVF", VecAluOpRRRR::VfnmaccVF),
    ("VfmsacVV", VecAluOpRRRR::VfmsacVV),
    ("VfmsacVF", VecAluOpRRRR::VfmsacVF),
    ("VfnmsacVV", VecAluOpRRRR::VfnmsacVV),
    ("VfnmsacVF", VecAluOpRRRR::VfnmsacVF),
    ("Vslide1upVX", VecAluOpRRRR::Vslide1upVX),
];

const RR_IMM5: [(&'static str, VecAluOpRRImm5); 24] = [
    ("VaddVI", VecAluOpRRImm5::VaddVI),
    ("VrsubVI", VecAluOpRRImm5::VrsubVI),
    ("VsllVI", VecAluOpRRImm5::VsllVI),
    ("VsrlVI", VecAluOpRRImm5::VsrlVI),
    ("VsraVI", VecAluOpRRImm5::VsraVI),
    ("VandVI", VecAluOpRRImm5::VandVI),
    ("VorVI", VecAluOpRRImm5::VorVI),
    ("VxorVI", VecAluOpRRImm5::VxorVI),
    ("VslidedownVI", VecAluOpRRImm5::VslidedownVI),
    ("VssrlVI", VecAluOpRRImm5::VssrlVI),
    ("VmergeVIM", VecAluOpRRImm5::VmergeVIM),
    ("VsadduVI", VecAluOpRRImm5::VsadduVI),
    ("VsaddVI", VecAluOpRRImm5::VsaddVI),
    ("VrgatherVI", VecAluOpRRImm5::VrgatherVI),
    ("VmvrV", VecAluOpRRImm5::VmvrV),
    ("VnclipWI", VecAluOpRRImm5::VnclipWI),
    ("VnclipuWI", VecAluOpRRImm5::VnclipuWI),
    ("VmseqVI", VecAluOpRRImm5::VmseqVI),
    ("VmsneVI", VecAluOpRRImm5::VmsneVI),
    ("VmsleuVI", VecAluOpRRImm5::VmsleuVI),
    ("VmsleVI", VecAluOpRRImm5::VmsleVI),
    ("VmsgtuVI", VecAluOpRRImm5::VmsgtuVI),
    ("VmsgtVI", VecAluOpRRImm5::VmsgtVI),
    ("VrorVI", VecAluOpRRImm5::VrorVI),
];

const RRR_IMM5: [(&'static str, VecAluOpRRRImm5); 1] = [(
    "VslideupVI",
    VecAluOpRRRImm5::VslideupVI,
)];

impl Named for VecAluOpRRR {
    ghost names = { rrr_ops };

    fn names() -> &'static [(&'static str, VecAluOpRRR)] {
        &RRR
    }
}

impl Named for VecAluOpRRRR {
    ghost names = { rrrr_ops };

    fn names() -> &'static [(&'static str, VecAluOpRRRR)] {
        &RRRR
    }
}

impl Named for VecAluOpRRImm5 {
    ghost names = { rr_imm5_ops };

    fn names() -> &'static [(&'static str, VecAluOpRRImm5)] {
        &RR_IMM5
    }
}

impl Named for VecAluOpRRRImm5 {
    ghost names = { rrr_imm5_ops };

    fn names() -> &'static [(&'static str, VecAluOpRRRImm5)] {
        &RRR_IMM5
    }
}
