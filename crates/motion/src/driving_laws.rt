// The laws of the checker of ways.
ghost use Rattle.motion.specs.Driving.{DrivesIfClear, NeverRefused};

// Places that are right, and stretches on which the load meets nothing, make a way that can be driven.
pub fn drives_if_clear()
    ensures { DrivesIfClear }
{}

// A way that can be driven is never refused, unless there is no memory.
pub fn never_refused()
    ensures { NeverRefused }
{}
