// Making a jump.
ghost use Rattle.std.specs.Prelude.{◌≡◌};
ghost use Rattle.aiming.specs.Jumps.{shown, jump_built};

use crate::faults::JumpFault;
use instructions::build::known_form;
use instructions::fields::Fields;
use instructions::instruction::Instruction;
use operations::operation::Operation;

// The jump with these registers, at distance 0; or why there is none.
pub fn jump_of(op: Operation, d: i64, a: i64, b: i64) -> Result<Instruction, JumpFault>
    ensures { shown result ≡ jump_built op d a b }
{
    if !known_form(op).is_jump() {
        return Err(JumpFault::NoJump);
    }
    let fields = Fields {
        d,
        a,
        b,
        n: 0,
        m: 0,
    };
    Ok(Instruction::checked(op, fields)?)
}
