// The upright line through a place: what lies beside it, and how high lines are that it meets.
ghost use Rattle.std.specs.Prelude.{◌≡◌, ◌^◌, pos, ◌≤ℤ◌, ◌<ℤ◌, Decides};
ghost use Rattle.algebra.specs.Forms.{value};
ghost use Rattle.exact.specs.Points.{corner_of, place_of};
ghost use Rattle.exact.specs.Sides.{PlaceNear};
ghost use Rattle.hall.specs.Shapes.{shape_of};
ghost use Rattle.obstacle.specs.Section.{Spans};
ghost use Rattle.ledge.specs.Descents.{Farther, Outermost};
ghost use Rattle.ledge.specs.Heights.{foot};
ghost use Rattle.ledge.specs.Landings.{IsOver, IsHeld, form_of};

use crate::descents::Hand;
use exact::orders::height_order;
use exact::points::{Place, Side};
use hall::shapes::Shape;

// The upright line through p.
#[derive(Clone, Copy)]
pub(crate) struct Upright {
    pub(crate) p: Place,
    ghost near: { PlaceNear (2 ^ 20) (2 ^ 20) p },
}

// A line that runs to the right.
#[derive(Clone, Copy)]
pub(crate) struct Slope {
    pub(crate) side: Side,
    ghost onward: { side.from.x <ℤ side.to.x },
}

impl Upright {
    // Whether a side begins farther out on one hand. An arm for each hand: they share nothing that a closure could leave in place.
    fn is_farther(self, side: Side, hand: Hand) -> bool
        ensures { Decides result (Farther (corner_of side.from) hand (place_of self.p)) }
    {
        let x = side.from.x * self.p.w as i64;
        match hand {
            Hand::Left => x < self.p.x,
            Hand::Right => self.p.x < x,
        }
    }

    // Whether no corner of a shape lies farther out: each is where a side begins.
    pub(crate) fn is_outermost(self, shape: &Shape<16>, hand: Hand) -> bool
        ensures { Decides result (Outermost (shape_of shape.now) hand (place_of self.p)) }
    {
        shape.sides().all(|side| !self.is_farther(side, hand))
    }

    // Whether corners of the shape lie on both hands.
    fn is_spanned(self, shape: &Shape<16>) -> bool
        ensures { Decides result (Spans (shape_of shape.now) (place_of self.p)) }
    {
        !self.is_outermost(shape, Hand::Left) && !self.is_outermost(shape, Hand::Right)
    }

    // Whether it meets the slope between its ends, or there.
    fn reaches(self, slope: Slope) -> bool
        ensures { Decides result (IsOver slope.side (place_of self.p)) }
    {
        let (x, w) = (self.p.x, self.p.w as i64);
        slope.side.from.x * w <= x && x <= slope.side.to.x * w
    }

    // Whether a shape holds its place up by an upper side.
    pub(crate) fn is_held_by(self, shape: &Shape<16>, roof: Slope) -> bool
        ensures { Decides result (IsHeld (shape_of shape.now) roof.side (place_of self.p)) }
    {
        self.reaches(roof) && self.is_spanned(shape) && roof.side.value(self.p) >= 0
    }

    // Whether `low` is not higher than `high` there.
    pub(crate) fn is_under(self, low: Slope, high: Slope) -> bool
        ensures { Decides result (pos 0 ≤ℤ value (form_of low.side) (foot (form_of high.side) (place_of self.p))) }
    {
        height_order(low.side, high.side, self.p).is_le()
    }

    // Where it meets the slope.
    pub(crate) fn foot_on(self, slope: Slope) -> Place
        ensures value { place_of result ≡ foot (form_of slope.side) (place_of self.p) }
        ensures bound { PlaceNear (2 ^ 45) (2 ^ 33) result }
    {
        let (p, a, b) = (self.p, slope.side.from, slope.side.to);
        let step = slope.side.direction();
        let c = a.x * b.y - a.y * b.x;
        Place {
            x: step.dx * p.x,
            y: step.dy * p.x - c * p.w as i64,
            w: step.dx.unsigned_abs() * p.w,
        }
    }
}
