// What holds of all instructions.
ghost use Rattle.reading.specs.Reading.{WordsTell, HalfwordsTell};

// No two instructions have one word, and no two lists of instructions have the same halfwords.
pub fn words_stand()
    ensures words { WordsTell }
    ensures lists { HalfwordsTell }
{}
