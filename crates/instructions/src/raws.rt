// The fields as they stand in the word.
ghost use Rattle.std.specs.Prelude.{◌≡◌, true};
ghost use Rattle.instructions.specs.Faults.{lawful};
ghost use Rattle.instructions.specs.Words.{raw};

use crate::fields::Fields;
use crate::form::KnownForm;
use crate::slot::Slot;
use bits::part::Values;

// The fields of a lawful instruction, as they stand in its word.
pub fn raw_of(form: &KnownForm, f: &Fields) -> Values
    requires { lawful form.now.form f.now ≡ true }
    ensures { result ≡ raw form.now.form f.now }
{
    let used = &form.form;
    Values {
        d: used.d.in_word(f.d),
        a: used.a.in_word(f.a),
        b: used.b.in_word(f.b),
        n: used.n.in_word(f.n),
        m: used.m.in_word(f.m),
        opcode: used.opcode,
        funct3: used.funct3,
        funct: used.funct,
    }
}
