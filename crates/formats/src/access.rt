// What a load or a store reaches, and the layouts that differ by it.
ghost use Rattle.std.specs.Prelude.{◌≡◌};
ghost use Rattle.formats.specs.declared.kind.Kind.{Kind};
ghost use Rattle.formats.specs.Layouts.{layout};
ghost use Rattle.formats.specs.Lawful.{Spans};

use bits::layout::Layout;

pub struct Word;

pub struct Double;

// Formats with fields as wide as those of one kind.
pub trait Family {
    ghost widths: { Kind };
}

// The layout of a family for what is reached: the layouts differ in where the bits of the offset stand.
pub trait Access<F: Family> {
    ghost kind: { Kind };

    fn layout() -> Layout<'static>
        ensures { result.parts.now ≡ layout kind };

    ghost spans: { Spans kind F.widths };
}
