// The laws of ways.
ghost use Rattle.motion.specs.Stretch.{StretchSettled};

// A stretch enters a shape, or a side or two of the shape show that it passes.
pub fn stretch_settled()
    ensures { StretchSettled }
{}
