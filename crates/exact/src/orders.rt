// The order of places from left to right, of sides from low to high, and whether two places are the same.
ghost use Rattle.std.specs.Prelude.{◌≡◌, ◌-◌, ◌^◌, Decides, ◌≢◌};
ghost use Rattle.std.specs.Ordering.{MatchOrdering};
ghost use Rattle.algebra.specs.Forms.{Same};
ghost use Rattle.exact.specs.Orders.{LeftOf, InLine, Lower, Level, FallOf};
ghost use Rattle.exact.specs.Points.{place_of};
ghost use Rattle.exact.specs.Sides.{PlaceNear};

use crate::points::{Place, Side};
use std::cmp::Ordering;

// Which of two places is farther left: their fractions are compared crosswise, in products below 2 ^ 63.
pub fn x_order(p: Place, q: Place) -> Ordering
    requires first { PlaceNear (2 ^ 38 - 1) (2 ^ 25 - 1) p }
    requires second { PlaceNear (2 ^ 38 - 1) (2 ^ 25 - 1) q }
    ensures { MatchOrdering result (LeftOf p q) (InLine p q) (LeftOf q p) }
{
    let first = p.x * q.w as i64;
    let second = q.x * p.w as i64;
    first.cmp(&second)
}

// Whether two places are the same, whatever numbers they are written in. It can't be `==`: a place over 0 would be equal to places that differ; nor are
// the orders here `Ord`, since each asks how large the numbers are.
pub fn same_place(p: Place, q: Place) -> bool
    ensures { Decides result (Same (place_of p) (place_of q)) }
{
    let (v, w) = (p.w as i128, q.w as i128);
    p.x as i128 * w == q.x as i128 * v && p.y as i128 * w == q.y as i128 * v
}

// How high a side lies over an abscissa: -foot over run times the abscissa's w.
#[derive(Clone, Copy, Debug)]
pub struct Fall {
    pub foot: i64,
    pub run: i64,
}

impl Side {
    // The side's value at height 0 over the abscissa of a place, and its run, both as the run to the right has them.
    pub fn fall(self, here: Place) -> Fall
        requires slanted { self.from.x ≢ self.to.x }
        requires place { PlaceNear (2 ^ 36) (2 ^ 25) here }
        ensures { FallOf self here result }
    {
        let step = self.direction();
        let w = here.w as i64;
        let foot = -(step.dx * (self.from.y * w)) - step.dy * (here.x - self.from.x * w);
        if step.dx < 0 {
            Fall {
                foot: -foot,
                run: -step.dx,
            }
        } else {
            Fall { foot, run: step.dx }
        }
    }
}

// Which of two sides is lower over the abscissa of a place; neither is upright.
pub fn height_order(s: Side, t: Side, here: Place) -> Ordering
    requires first { s.from.x ≢ s.to.x }
    requires second { t.from.x ≢ t.to.x }
    requires place { PlaceNear (2 ^ 36) (2 ^ 25) here }
    ensures { MatchOrdering result (Lower s t here) (Level s t here) (Lower t s here) }
{
    let f = s.fall(here);
    let g = t.fall(here);
    let low = g.foot * f.run;
    let high = f.foot * g.run;
    low.cmp(&high)
}
