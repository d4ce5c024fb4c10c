// Vector arithmetic on two registers.
ghost use Rattle.std.specs.Prelude.{◌≡◌, true, Some};
ghost use Rattle.vector_operations.specs.Names.{VecAluOpRRR-name};
ghost use Rattle.vector_operations.specs.Codes.{form_named, class_of};

use crate::vector::{VecAluOp, VecInstOverlapInfo, class_in};
use operands::masking::VecOpMasking;
use operands::regs::Class;
use operations::operation::Operation;

// The place of the first of them in the table.
const FIRST: usize = 36;

#[derive(Clone, Copy, PartialEq, Eq, Debug)]
pub enum VecAluOpRRR {
    VaddVV,
    VaddVX,
    VfaddVV,
    VfaddVF,
    VsubVV,
    VsubVX,
    VfsubVV,
    VfsubVF,
    VrsubVX,
    VmulVV,
    VmulVX,
    VmulhVV,
    VmulhVX,
    VmulhuVV,
    VmulhuVX,
    VfmulVV,
    VfmulVF,
    VsmulVV,
    VsmulVX,
    VsllVV,
    VsllVX,
    VsrlVV,
    VsrlVX,
    VsraVV,
    VsraVX,
    VandVV,
    VandVX,
    VorVV,
    VorVX,
    VxorVV,
    VxorVX,
    VminuVV,
    VminuVX,
    VredminuVS,
    VminVV,
    VminVX,
    VmaxuVV,
    VmaxuVX,
    VredmaxuVS,
    VmaxVV,
    VmaxVX,
    VslidedownVX,
    VfrsubVF,
    VmergeVVM,
    VmergeVXM,
    VfmergeVFM,
    VcompressVM,
    VfdivVV,
    VfdivVF,
    VsadduVV,
    VsadduVX,
    VfrdivVF,
    VsaddVV,
    VsaddVX,
    VfminVV,
    VfmaxVV,
    VssubuVV,
    VssubuVX,
    VssubVV,
    VssubVX,
    VfsgnjVV,
    VfsgnjVF,
    VfsgnjnVV,
    VfsgnjxVV,
    VrgatherVV,
    VrgatherVX,
    VwadduVV,
    VwadduVX,
    VwaddVV,
    VwaddVX,
    VwsubuVV,
    VwsubuVX,
    VwsubVV,
    VwsubVX,
    VwadduWV,
    VwadduWX,
    VwaddWV,
    VwaddWX,
    VwsubuWV,
    VwsubuWX,
    VwsubWV,
    VwsubWX,
    VmseqVV,
    VmseqVX,
    VmfeqVV,
    VmfeqVF,
    VmsneVV,
    VmsneVX,
    VmfleVV,
    VmfleVF,
    VmandMM,
    VmsltuVV,
    VmsltuVX,
    VmorMM,
    VmsltVV,
    VmsltVX,
    VmfltVV,
    VmfltVF,
    VmsleuVV,
    VmsleuVX,
    VmfneVV,
    VmfneVF,
    VmsleVV,
    VmsleVX,
    VmfgtVF,
    VmnandMM,
    VmsgtuVX,
    VmnorMM,
    VmsgtVX,
    VmfgeVF,
    VandnVV,
    VandnVX,
    VrorVV,
    VrorVX,
    VrolVV,
    VrolVX,
}

impl VecAluOp for VecAluOpRRR {
    ghost name = { VecAluOpRRR-name };

    ghost register = { true };

    #[tactic(auto, using(crate::proofs::Places::rrr_place))]
    fn operation(self) -> Operation {
        Operation {
            place: FIRST + self as usize,
        }
    }
}

impl VecAluOpRRR {
    // The class of the register in the place of vs1.
    pub fn vs1_regclass(&self) -> Class
        ensures { Some result ≡ class_of (form_named (VecAluOpRRR-name self.now)).a }
    {
        class_in(&self.form())
    }
}

impl VecInstOverlapInfo for VecAluOpRRR {
    ghost forbids = { λ op. (form_named (VecAluOpRRR-name op)).forbids };

    fn forbids_src_dst_overlaps(&self) -> bool {
        self.form().forbids.sources
    }

    fn forbids_mask_dst_overlaps(&self) -> bool {
        self.form().forbids.mask
    }

    fn forbids_overlaps(&self, mask: &VecOpMasking) -> bool {
        self.forbids_src_dst_overlaps() || (mask.is_enabled() && self.forbids_mask_dst_overlaps())
    }
}
