// Why operands have no word: a code is wider than its place.
ghost use Rattle.std.specs.Prelude.{◌≡◌, ◌^◌, ◌<◌, ◌≤◌, MatchResult};
ghost use Rattle.formats.specs.Codes.{code_of};

use operands::range::fits;

#[derive(Clone, Copy, PartialEq, Eq, Debug)]
pub enum WideCode {
    Opcode(u32),
    Funct2(u32),
    Funct3(u32),
    Funct4(u32),
    Funct6(u32),
    Funct7(u32),
    Lumop(u32),
    Mop(u32),
    Nf(u32),
}

impl WideCode {
    fn code(self) -> u32
        ensures { result ≡ code_of self }
    {
        match self {
            WideCode::Opcode(code)
            | WideCode::Funct2(code)
            | WideCode::Funct3(code)
            | WideCode::Funct4(code)
            | WideCode::Funct6(code)
            | WideCode::Funct7(code)
            | WideCode::Lumop(code)
            | WideCode::Mop(code)
            | WideCode::Nf(code) => code,
        }
    }
}

// Refuses a code that is wider than its place.
pub fn narrow(code: WideCode, width: u32) -> Result<(), WideCode>
    ensures { MatchResult result (λ done. code_of code < 2 ^ width) (λ e. (2 ^ width ≤ code_of code) × (e ≡ code)) }
{
    if fits(width, code.code()) {
        Ok(())
    } else {
        Err(code)
    }
}
