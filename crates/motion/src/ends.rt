// The values of a side at the two ends of a stretch, which pass 64 bits.
ghost use Rattle.std.specs.Prelude.{◌^◌, pos, ◌≤ℤ◌, ◌<ℤ◌, Decides};
ghost use Rattle.algebra.specs.Near.{Near};

use exact::wide::product_order;

// Not the type of exact::points with wider numbers: each keeps its own bounds.
#[derive(Clone, Copy, Debug)]
pub struct Ends {
    pub from: i128,
    pub to: i128,
    pub ghost starts: { Near (2 ^ 85) from },
    pub ghost ends: { Near (2 ^ 85) to },
}

// Three tests, and no match on the course of a value: each caller asks for one.
impl Ends {
    ghost use Rattle.motion.specs.Ends.{Low, LatePair};

    // Whether the stretch comes to the left of the side at neither end: then at no place between.
    pub(crate) fn is_outside(self) -> bool
        ensures { Decides result (Low self) }
    {
        self.from <= 0 && self.to <= 0
    }

    // Whether the stretch starts to the left of the side, and doesn't end there.
    fn falls(self) -> bool
        ensures { Decides result ((pos 0 <ℤ self.from) × (self.to ≤ℤ pos 0)) }
    {
        self.from > 0 && self.to <= 0
    }

    // Whether it ends to the left of the side, and doesn't start there.
    fn rises(self) -> bool
        ensures { Decides result ((self.from ≤ℤ pos 0) × (pos 0 <ℤ self.to)) }
    {
        self.from <= 0 && self.to > 0
    }

    // Whether the left of this side is left no later than that of another is entered. The products pass 128 bits.
    pub(crate) fn is_late(self, other: Ends) -> bool
        ensures { Decides result (LatePair self other) }
    {
        self.falls()
            && other.rises()
            && product_order(self.from, other.to, other.from, self.to).is_le()
    }
}
