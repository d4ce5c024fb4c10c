// Vector arithmetic on a register, a constant and the destination.
ghost use Rattle.std.specs.Prelude.{◌≡◌, false};
ghost use Rattle.vector_operations.specs.Names.{VecAluOpRRRImm5-name};
ghost use Rattle.vector_operations.specs.Codes.{form_named, is_unsigned};

use crate::vector::{VecAluOp, VecInstOverlapInfo};
use operands::masking::VecOpMasking;
use operations::operation::Operation;
use operations::row::Number;

// The place of the first of them in the table.
const FIRST: usize = 189;

#[derive(Clone, Copy, PartialEq, Eq, Debug)]
pub enum VecAluOpRRRImm5 {
    VslideupVI,
}

impl VecAluOp for VecAluOpRRRImm5 {
    ghost name = { VecAluOpRRRImm5-name };

    ghost register = { false };

    #[tactic(auto, using(crate::proofs::Places::rrr_imm5_place))]
    fn operation(self) -> Operation {
        Operation {
            place: FIRST + self as usize,
        }
    }
}

impl VecAluOpRRRImm5 {
    // Whether the constant is 0 to 31, and not -16 to 15.
    pub fn imm_is_unsigned(&self) -> bool
        ensures { result ≡ is_unsigned (form_named (VecAluOpRRRImm5-name self.now)).n }
    {
        matches!(self.form().n, Some(Number::Unsigned { .. }))
    }
}

impl VecInstOverlapInfo for VecAluOpRRRImm5 {
    ghost forbids = { λ op. (form_named (VecAluOpRRRImm5-name op)).forbids };

    fn forbids_src_dst_overlaps(&self) -> bool {
        self.form().forbids.sources
    }

    fn forbids_mask_dst_overlaps(&self) -> bool {
        self.form().forbids.mask
    }

    fn forbids_overlaps(&self, mask: &VecOpMasking) -> bool {
        self.forbids_src_dst_overlaps() || (mask.is_enabled() && self.forbids_mask_dst_overlaps())
    }
}
