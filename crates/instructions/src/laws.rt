// What holds of every operation's fields.
ghost use Rattle.instructions.specs.Laws.{LawfulExactly, LowBitsTell};

// Fields have no fault exactly when they are lawful.
pub fn fields_stand()
    ensures { LawfulExactly }
{}

// The low two bits of a word tell how many halfwords it has.
pub fn sizes_stand()
    ensures { LowBitsTell }
{}
