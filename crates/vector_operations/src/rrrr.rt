// Vector arithmetic on two registers and the destination.
ghost use Rattle.std.specs.Prelude.{◌≡◌, true, Some};
ghost use Rattle.vector_operations.specs.Names.{VecAluOpRRRR-name};
ghost use Rattle.vector_operations.specs.Codes.{form_named, class_of};

use crate::vector::{VecAluOp, VecInstOverlapInfo, class_in};
use operands::masking::VecOpMasking;
use operands::regs::Class;
use operations::operation::Operation;

// The place of the first of them in the table.
const FIRST: usize = 152;

#[derive(Clone, Copy, PartialEq, Eq, Debug)]
pub enum VecAluOpRRRR {
    VmaccVV,
    VmaccVX,
    VnmsacVV,
    VnmsacVX,
    VfmaccVV,
    VfmaccVF,
    VfnmaccVV,
    VfnmaccVF,
    VfmsacVV,
    VfmsacVF,
    VfnmsacVV,
    VfnmsacVF,
    Vslide1upVX,
}

impl VecAluOp for VecAluOpRRRR {
    ghost name = { VecAluOpRRRR-name };

    ghost register = { true };

    #[tactic(auto, using(crate::proofs::Places::rrrr_place))]
    fn operation(self) -> Operation {
        Operation {
            place: FIRST + self as usize,
        }
    }
}

impl VecAluOpRRRR {
    // The class of the register in the place of vs1.
    pub fn vs1_regclass(&self) -> Class
        ensures { Some result ≡ class_of (form_named (VecAluOpRRRR-name self.now)).a }
    {
        class_in(&self.form())
    }
}

impl VecInstOverlapInfo for VecAluOpRRRR {
    ghost forbids = { λ op. (form_named (VecAluOpRRRR-name op)).forbids };

    fn forbids_src_dst_overlaps(&self) -> bool {
        self.form().forbids.sources
    }

    fn forbids_mask_dst_overlaps(&self) -> bool {
        self.form().forbids.mask
    }

    fn forbids_overlaps(&self, mask: &VecOpMasking) -> bool {
        self.forbids_src_dst_overlaps() || (mask.is_enabled() && self.forbids_mask_dst_overlaps())
    }
}
