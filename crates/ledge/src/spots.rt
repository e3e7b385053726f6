// Spots of a surface, by the parts into which they divide it.
ghost use Rattle.std.specs.Prelude.{◌+◌, ◌<◌, ◌≤◌};

// t parts of t + u from the left end. The parts are values of a form at the two ends, so together at most the cross product of two sides' directions.
#[derive(Clone, Copy)]
pub struct Spot {
    pub t: u64,
    pub u: u64,
    ghost some: { 0 < t + u },
    ghost few: { t + u ≤ 33521672 },
}
