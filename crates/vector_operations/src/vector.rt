// What the vector operations have in common: their categories, their codes, and which overlaps they forbid.
ghost use Rattle.std.specs.Prelude.{◌≡◌, ◌<◌, Bool, true, Some, List, ℕ};
ghost use Rattle.std.specs.Option.{is_some};
ghost use Rattle.operations.specs.declared.row.Forbids.{Forbids};
ghost use Rattle.operations.specs.Manual.{operations, form_at};
ghost use Rattle.operations.specs.Names.{named};
ghost use Rattle.vector_operations.specs.Codes.{form_named, Arithmetic, category_code, class_of, forbids_any};

use operands::masking::VecOpMasking;
use operands::regs::Class;
use operations::operation::Operation;
use operations::row::{Form, Use};
use operations::table::form_of;

// The category of an arithmetic operation: integer, float or mask arithmetic, and what stands beside vs2.
#[derive(Clone, Copy, PartialEq, Eq, Debug)]
pub enum VecOpCategory {
    OPIVV,
    OPFVV,
    OPMVV,
    OPIVI,
    OPIVX,
    OPFVF,
    OPMVX,
    OPCFG,
}

impl VecOpCategory {
    pub fn encode(&self) -> u32
        ensures is { result ≡ category_code self.now }
        ensures narrow { result < 8 }
    {
        match self {
            VecOpCategory::OPIVV => 0b000,
            VecOpCategory::OPFVV => 0b001,
            VecOpCategory::OPMVV => 0b010,
            VecOpCategory::OPIVI => 0b011,
            VecOpCategory::OPIVX => 0b100,
            VecOpCategory::OPFVF => 0b101,
            VecOpCategory::OPMVX => 0b110,
            VecOpCategory::OPCFG => 0b111,
        }
    }

    // The category whose code this is.
    fn of_bits(bits: u32) -> VecOpCategory
        requires { bits < 8 }
        ensures { category_code result ≡ bits }
    {
        match bits {
            0b000 => VecOpCategory::OPIVV,
            0b001 => VecOpCategory::OPFVV,
            0b010 => VecOpCategory::OPMVV,
            0b011 => VecOpCategory::OPIVI,
            0b100 => VecOpCategory::OPIVX,
            0b101 => VecOpCategory::OPFVF,
            0b110 => VecOpCategory::OPMVX,
            _ => VecOpCategory::OPCFG,
        }
    }
}

// The operations of vector arithmetic. What is said of one is read from its row of the table.
pub trait VecAluOp: Copy {
    ghost name: { Self → List ℕ };

    // whether a register stands in the place of vs1, and no constant
    ghost register: { Bool };

    // The row of the table that has its name.
    fn operation(self) -> Operation
        ensures named { Some result.place ≡ named operations (name self) }
        ensures source { is_some (form_at result.place).a ≡ register }
        ensures arithmetic { Arithmetic (form_at result.place) };

    // What the table says of it.
    fn form(self) -> Form
        ensures is { result ≡ form_named (name self) }
        ensures source { is_some result.a ≡ register }
        ensures arithmetic { Arithmetic result }
    {
        form_of(self.operation())
    }

    fn opcode(&self) -> u32
        ensures is { result ≡ (form_named (name self.now)).opcode }
        ensures vector { result ≡ 87 }
    {
        self.form().opcode
    }

    fn funct3(&self) -> u32
        ensures is { result ≡ (form_named (name self.now)).funct3 }
        ensures narrow { result < 8 }
    {
        self.form().funct3
    }

    fn funct6(&self) -> u32
        ensures is { result ≡ (form_named (name self.now)).funct }
        ensures narrow { result < 64 }
    {
        let form = self.form();
        form.funct
    }

    // The category that funct3 tells.
    fn category(&self) -> VecOpCategory
        ensures { category_code result ≡ (form_named (name self.now)).funct3 }
    {
        VecOpCategory::of_bits(self.funct3())
    }
}

// The class of the register in the place of vs1.
pub(crate) fn class_in(form: &Form) -> Class
    requires { is_some form.now.a ≡ true }
    ensures { Some result ≡ class_of form.now.a }
{
    match form.a.unwrap() {
        Use::Full(class, _) | Use::Short(class) => class,
    }
}

// Which overlaps of the destination with the sources an operation forbids.
pub trait VecInstOverlapInfo {
    // what the manuals say of the operation
    ghost forbids: { Self → Forbids };

    // Whether the destination may be none of the vector sources.
    fn forbids_src_dst_overlaps(&self) -> bool
        ensures { result ≡ (forbids self.now).sources };

    // Whether the destination may not be v0 where the operation is masked.
    fn forbids_mask_dst_overlaps(&self) -> bool
        ensures { result ≡ (forbids self.now).mask };

    // Whether the destination may be none of the sources, v0 among them where the operation is masked.
    fn forbids_overlaps(&self, mask: &VecOpMasking) -> bool
        ensures { result ≡ forbids_any (forbids self.now) mask.now };
}
