// Whether a straight stretch passes a shape, decided exactly: by the values of the shape's sides at the two ends.
ghost use Rattle.std.specs.Prelude.{◌≡◌, ◌-◌, ◌^◌, ◌≤◌, Decides, T};
ghost use Rattle.std.specs.List.{Any};
ghost use Rattle.algebra.specs.Hall.{side};
ghost use Rattle.algebra.specs.Near.{Near};
ghost use Rattle.exact.specs.Points.{corner_of, place_of};
ghost use Rattle.hall.specs.Outlines.{bounded};
ghost use Rattle.hall.specs.Shapes.{shape_of};
ghost use Rattle.hall.specs.Tasks.{Bounded};
ghost use Rattle.motion.specs.Ends.{LatePair};
ghost use Rattle.motion.specs.Stretch.{Passes};

use crate::ends::Ends;
use exact::points::{Place, Side};
use hall::shapes::Shape;

// The straight stretch between two places of a way.
#[derive(Clone, Copy, Debug)]
pub struct Stretch {
    pub from: Place,
    pub to: Place,
    pub ghost near: { T (bounded (2 ^ 60 - 1) from) × T (bounded (2 ^ 60 - 1) to) },
}

// Above 0 if p lies to the left of the side's line, 0 on it, below 0 to the right, for places of any well-formed way.
// One function for this and `Side::value`, which is in 64 bits, would need a trait of numbers that says how large each step may get.
fn wide_value(s: Side, p: Place) -> i128
    requires { Bounded (2 ^ 60 - 1) (place_of p) }
    ensures value { result ≡ side (corner_of s.from) (corner_of s.to) (place_of p) }
    ensures bound { Near (2 ^ 85) result }
{
    let run = s.direction();
    let w = p.w as i128;
    run.dx as i128 * (p.y as i128 - s.from.y as i128 * w)
        - run.dy as i128 * (p.x as i128 - s.from.x as i128 * w)
}

impl Stretch {
    // The values of a side at the two ends.
    fn ends_of(self, s: Side) -> Ends
        ensures from { result.from ≡ side (corner_of s.from) (corner_of s.to) (place_of self.from) }
        ensures to { result.to ≡ side (corner_of s.from) (corner_of s.to) (place_of self.to) }
    {
        Ends {
            from: wide_value(s, self.from),
            to: wide_value(s, self.to),
        }
    }

    // Whether no place of the stretch is inside the shape; to touch its edge is not to be inside.
    pub fn is_clear<const N: usize>(self, shape: &Shape<N>) -> bool
        requires { N ≤ 256 }
        ensures { Decides result (Passes (shape_of shape.now) (place_of self.from) (place_of self.to)) }
    {
        // Of most shapes one of the first sides settles it, and those after it are never asked. By number, since each value stands at that of its side: none
        // is computed twice.
        let mut ends = [Ends { from: 0, to: 0 }; N];
        for i in 0..shape.len() {
            let found = self.ends_of(shape.side(i));
            if found.is_outside() {
                return true;
            }
            ends[i] = found;
        }
        has_parted(&ends[..shape.len()])
    }
}

// Whether the stretch has left the left of `first` where it comes to the left of one of the sides.
fn has_late(first: Ends, sides: &[Ends]) -> bool
    ensures { Decides result (Any (LatePair first) sides.now) }
{
    sides.iter().any(|side| first.is_late(*side))
}

fn has_parted(sides: &[Ends]) -> bool
    ensures { Decides result (Any (λ e. Any (LatePair e) sides.now) sides.now) }
{
    sides.iter().any(|side| has_late(*side, sides))
}
