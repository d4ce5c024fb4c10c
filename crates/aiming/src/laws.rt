// What holds of all words, and of all jumps.
ghost use Rattle.aiming.specs.Standing.{InstructionOfExactly, AimingStands};

// A word is an instruction exactly when it is that instruction's word.
pub fn instructions_stand()
    ensures { InstructionOfExactly }
{}

// How far jumps reach, and what a jump at another distance is.
pub fn aiming_stands()
    ensures { AimingStands }
{}
