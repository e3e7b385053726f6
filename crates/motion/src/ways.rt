// Ways as such.
ghost use Rattle.motion.specs.Ways.{Together, Fewer};

// Ways can be put together.
pub fn ways_join()
    ensures { Together }
{}

// Fewer things never take a way away.
pub fn fewer_things()
    ensures { Fewer }
{}
