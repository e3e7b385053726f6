// Where two sides meet.
ghost use Rattle.std.specs.Prelude.{◌≡◌, ◌+◌, ◌-◌, ◌^◌, ◌<◌, ◌≤◌, pos, ◌+ℤ◌, ◌*ℤ◌, ◌<ℤ◌, Decides};
ghost use Rattle.algebra.specs.Near.{Near};
ghost use Rattle.exact.specs.Meets.{EndsOf, MeetIs};
ghost use Rattle.exact.specs.Sides.{PlaceNear};

use crate::points::{Ends, Place, Side};
use crate::sides::turn;

impl Side {
    // The ends of this side against the line of another.
    pub fn against(self, line: Side) -> Ends
        ensures { EndsOf self line result }
    {
        Ends {
            from: turn(line.from, line.to, self.from),
            to: turn(line.from, line.to, self.to),
        }
    }

    // The place that divides the side as t to u, counted from its start.
    pub fn divided(self, t: u64, u: u64) -> Place
        requires some { 0 < t + u }
        requires parts { t + u ≤ 33521672 }
        ensures x { result.x ≡ (self.from.x *ℤ pos u) +ℤ (self.to.x *ℤ pos t) }
        ensures y { result.y ≡ (self.from.y *ℤ pos u) +ℤ (self.to.y *ℤ pos t) }
        ensures w { result.w ≡ t + u }
        ensures bound { PlaceNear (2 ^ 36 - 1) (2 ^ 25 - 1) result }
    {
        let before = t as i64;
        let after = u as i64;
        Place {
            x: self.from.x * after + self.to.x * before,
            y: self.from.y * after + self.to.y * before,
            w: t + u,
        }
    }
}

impl Ends {
    // Whether both ends are on one side of the line, and off it.
    fn one_side(self) -> bool
        requires from { Near (2 ^ 25) self.from }
        requires to { Near (2 ^ 25) self.to }
        ensures { Decides result (pos 0 <ℤ (self.from *ℤ self.to)) }
    {
        self.from * self.to > 0
    }
}

// The place that two sides have in common, unless they are parallel. The ends of each are set against the line of the other:
// where they lie on both sides of it, their distances from it are the parts in which it divides the side.
pub fn meet(s: Side, t: Side) -> Option<Place>
    ensures { MeetIs s t result }
{
    let f = s.against(t);
    let g = t.against(s);
    if f.from == f.to || f.one_side() || g.one_side() {
        return None;
    }
    Some(s.divided(f.from.unsigned_abs(), f.to.unsigned_abs()))
}
