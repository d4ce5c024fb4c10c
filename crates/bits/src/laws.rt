// What holds of every layout and every width.
ghost use Rattle.bits.specs.Laws.{LayoutsExact, TwosExact};

// A word of a sound layout tells its fields; two's complement of a width tells its number.
pub fn bits_stand()
    ensures layouts { LayoutsExact }
    ensures twos { TwosExact }
{}
