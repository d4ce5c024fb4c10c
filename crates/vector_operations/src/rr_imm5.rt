// Vector arithmetic on a register and a constant.
ghost use Rattle.std.specs.Prelude.{◌≡◌, false};
ghost use Rattle.vector_operations.specs.Names.{VecAluOpRRImm5-name};
ghost use Rattle.vector_operations.specs.Codes.{form_named, is_unsigned};

use crate::vector::{VecAluOp, VecInstOverlapInfo};
use operands::masking::VecOpMasking;
use operations::operation::Operation;
use operations::row::Number;

// The place of the first of them in the table.
const FIRST: usize = 165;

#[derive(Clone, Copy, PartialEq, Eq, Debug)]
pub enum VecAluOpRRImm5 {
    VaddVI,
    VrsubVI,
    VsllVI,
    VsrlVI,
    VsraVI,
    VandVI,
    VorVI,
    VxorVI,
    VslidedownVI,
    VssrlVI,
    VmergeVIM,
    VsadduVI,
    VsaddVI,
    VrgatherVI,
    VmvrV,
    VnclipWI,
    VnclipuWI,
    VmseqVI,
    VmsneVI,
    VmsleuVI,
    VmsleVI,
    VmsgtuVI,
    VmsgtVI,
    VrorVI,
}

impl VecAluOp for VecAluOpRRImm5 {
    ghost name = { VecAluOpRRImm5-name };

    ghost register = { false };

    #[tactic(auto, using(crate::proofs::Places::rr_imm5_place))]
    fn operation(self) -> Operation {
        Operation {
            place: FIRST + self as usize,
        }
    }
}

impl VecAluOpRRImm5 {
    // Whether the constant is 0 to 31, and not -16 to 15.
    pub fn imm_is_unsigned(&self) -> bool
        ensures { result ≡ is_unsigned (form_named (VecAluOpRRImm5-name self.now)).n }
    {
        matches!(self.form().n, Some(Number::Unsigned { .. }))
    }
}

impl VecInstOverlapInfo for VecAluOpRRImm5 {
    ghost forbids = { λ op. (form_named (VecAluOpRRImm5-name op)).forbids };

    fn forbids_src_dst_overlaps(&self) -> bool {
        self.form().forbids.sources
    }

    fn forbids_mask_dst_overlaps(&self) -> bool {
        self.form().forbids.mask
    }

    fn forbids_overlaps(&self, mask: &VecOpMasking) -> bool {
        self.forbids_src_dst_overlaps() || (mask.is_enabled() && self.forbids_mask_dst_overlaps())
    }
}
