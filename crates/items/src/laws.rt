// What holds of all items.
ghost use Rattle.items.specs.Laws.{ItemLaws, JumpLaws, PairLaws};

// Items are known by their halfwords; jumps are found where they stand, and keep their length at another distance; a constant's pair holds it.
pub fn items_stand()
    ensures items { ItemLaws }
    ensures jumps { JumpLaws }
    ensures pairs { PairLaws }
{}
