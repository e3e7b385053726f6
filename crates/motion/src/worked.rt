// Halls worked out by hand.
ghost use Rattle.motion.specs.Worked.{WorkedHalls};

// What is said of each of them holds.
pub fn worked_halls()
    ensures { WorkedHalls }
{}
