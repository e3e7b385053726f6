// The law of growth: the contract of a function.
ghost use Rattle.obstacle.specs.Grows.{Grows};

// Where the load meets a thing is the inside of one sound shape.
pub fn grows()
    ensures { Grows }
{}
