// Unit-stride vector loads and stores.
ghost use Rattle.std.specs.Prelude.{◌≡◌, Some};
ghost use Rattle.operations.specs.Manual.{operations};
ghost use Rattle.operations.specs.Names.{named};
ghost use Rattle.vector_operations.specs.Names.{VecMemOp-name};
ghost use Rattle.vector_operations.specs.Codes.{form_named};

use crate::vector::VecInstOverlapInfo;
use args::VecElementWidth;
use operands::masking::VecOpMasking;
use operations::operation::Operation;
use operations::row::Form;
use operations::table::form_of;

// The places of the first load and the first store in the table.
const FIRST_LOAD: usize = 190;

const FIRST_STORE: usize = 194;

// A load or a store, by the width of an element.
#[derive(Clone, Copy, PartialEq, Eq, Debug)]
pub enum VecMemOp {
    Load(VecElementWidth),
    Store(VecElementWidth),
}

impl VecMemOp {
    // The row of the table that has its name.
    #[tactic(auto, using(crate::proofs::Places::load_place, crate::proofs::Places::store_place))]
    pub fn operation(self) -> Operation
        ensures { Some result.place ≡ named operations (VecMemOp-name self) }
    {
        let place = match self {
            VecMemOp::Load(width) => FIRST_LOAD + width as usize,
            VecMemOp::Store(width) => FIRST_STORE + width as usize,
        };
        Operation { place }
    }

    // What the table says of it.
    pub fn form(self) -> Form
        ensures { result ≡ form_named (VecMemOp-name self) }
    {
        form_of(self.operation())
    }
}

impl VecInstOverlapInfo for VecMemOp {
    ghost forbids = { λ op. (form_named (VecMemOp-name op)).forbids };

    fn forbids_src_dst_overlaps(&self) -> bool {
        self.form().forbids.sources
    }

    fn forbids_mask_dst_overlaps(&self) -> bool {
        self.form().forbids.mask
    }

    fn forbids_overlaps(&self, mask: &VecOpMasking) -> bool {
        self.forbids_src_dst_overlaps() || (mask.is_enabled() && self.forbids_mask_dst_overlaps())
    }
}
