// The operations and widths by name.
ghost use Rattle.std.specs.Prelude.{◌≡◌, List, Option, ℕ, map};
ghost use Rattle.std.specs.List.{find};
ghost use Rattle.std.specs.Option.{option_map};
ghost use Rattle.std.specs.Str.{bytes_eq};
ghost use Rattle.text.specs.Fields.{text_of};
ghost use Rattle.replay.specs.Names.{meant, cr_ops, ca_ops, cj_ops, ci_ops, ciw_ops, cb_ops, css_ops, cs_ops, cl_ops, widths};

use crate::operand::Operand;
use args::{CaOp, CbOp, CiOp, CiwOp, CjOp, ClOp, CrOp, CsOp, CssOp, VecElementWidth};
use text::fields::Field;

// Values that have names.
pub trait Named: Copy + 'static {
    ghost names: { List (List ℕ × Self) };

    // Each name, with what it stands for.
    fn names() -> &'static [(&'static str, Self)]
        ensures { map (λ e. (e.0.now, e.1)) result.now ≡ names };
}

// What the first entry of that name stands for.
fn look_up<T: Copy>(names: &[(&str, T)], name: &[u8]) -> Option<T>
    ensures { result ≡ option_map (λ e. e.1) (find (λ e. bytes_eq e.0.now name.now) names.now) }
{
    names.iter().find(|e| e.0.as_bytes() == name).map(|e| e.1)
}

// What a name stands for.
fn called<T: Named>(name: &[u8]) -> Option<T>
    ensures { result ≡ meant T.names name.now }
{
    look_up(T::names(), name)
}

impl<T: Named> Operand for T {
    ghost Meaning = { T };

    ghost meaning = { λ x. x };

    ghost read = { λ p. meant T.names (text_of p) };

    fn of(field: Field<'_>) -> Option<T> {
        called(field.text())
    }
}

impl Named for CrOp {
    ghost names = { cr_ops };

    fn names() -> &'static [(&'static str, CrOp)] {
        &[
            ("CMv", CrOp::CMv),
            ("CAdd", CrOp::CAdd),
            ("CJr", CrOp::CJr),
            ("CJalr", CrOp::CJalr),
            ("CEbreak", CrOp::CEbreak),
        ]
    }
}

impl Named for CaOp {
    ghost names = { ca_ops };

    fn names() -> &'static [(&'static str, CaOp)] {
        &[
            ("CAnd", CaOp::CAnd),
            ("COr", CaOp::COr),
            ("CXor", CaOp::CXor),
            ("CSub", CaOp::CSub),
            ("CAddw", CaOp::CAddw),
            ("CSubw", CaOp::CSubw),
            ("CMul", CaOp::CMul),
        ]
    }
}

impl Named for CjOp {
    ghost names = { cj_ops };

    fn names() -> &'static [(&'static str, CjOp)] {
        &[("CJ", CjOp::CJ)]
    }
}

impl Named for CiOp {
    ghost names = { ci_ops };

    fn names() -> &'static [(&'static str, CiOp)] {
        &[
            ("CAddi", CiOp::CAddi),
            ("CAddiw", CiOp::CAddiw),
            ("CAddi16sp", CiOp::CAddi16sp),
            ("CLi", CiOp::CLi),
            ("CLui", CiOp::CLui),
            ("CSlli", CiOp::CSlli),
            ("CLwsp", CiOp::CLwsp),
            ("CLdsp", CiOp::CLdsp),
            ("CFldsp", CiOp::CFldsp),
        ]
    }
}

impl Named for CiwOp {
    ghost names = { ciw_ops };

    fn names() -> &'static [(&'static str, CiwOp)] {
        &[("CAddi4spn", CiwOp::CAddi4spn)]
    }
}

impl Named for CbOp {
    ghost names = { cb_ops };

    fn names() -> &'static [(&'static str, CbOp)] {
        &[
            ("CSrli", CbOp::CSrli),
            ("CSrai", CbOp::CSrai),
            ("CAndi", CbOp::CAndi),
        ]
    }
}

impl Named for CssOp {
    ghost names = { css_ops };

    fn names() -> &'static [(&'static str, CssOp)] {
        &[
            ("CFsdsp", CssOp::CFsdsp),
            ("CSwsp", CssOp::CSwsp),
            ("CSdsp", CssOp::CSdsp),
        ]
    }
}

impl Named for CsOp {
    ghost names = { cs_ops };

    fn names() -> &'static [(&'static str, CsOp)] {
        &[("CFsd", CsOp::CFsd), ("CSw", CsOp::CSw), ("CSd", CsOp::CSd)]
    }
}

impl Named for ClOp {
    ghost names = { cl_ops };

    fn names() -> &'static [(&'static str, ClOp)] {
        &[("CFld", ClOp::CFld), ("CLw", ClOp::CLw), ("CLd", ClOp::CLd)]
    }
}

impl Named for VecElementWidth {
    ghost names = { widths };

    fn names() -> &'static [(&'static str, VecElementWidth)] {
        &[
            ("E8", VecElementWidth::E8),
            ("E16", VecElementWidth::E16),
            ("E32", VecElementWidth::E32),
            ("E64", VecElementWidth::E64),
        ]
    }
}
