// What holds of all pairs.
ghost use Rattle.pairs.specs.Pairs.{PairMakes, PairHolds};

// A number in range has one high and one low part; its pair is lawful and holds it.
pub fn pairs_stand()
    ensures makes { PairMakes }
    ensures holds { PairHolds }
{}
