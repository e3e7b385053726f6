// Shadows: the spots of a surface that are inside an obstacle, or beyond a wall.
ghost use Rattle.std.specs.Prelude.{◌≡◌, ◌<◌, ⊤, None, Decides, MatchOption};
ghost use Rattle.std.specs.Ordering.{MatchOrdering};
ghost use Rattle.exact.specs.Points.{corner_of};
ghost use Rattle.hall.specs.Shapes.{shape_of};
ghost use Rattle.ledge.specs.Shadows.{Before, Together, Coursed, Cut, CutBy, Gone, Dark, Later, Earlier, Opened, Opens, Casts};

use crate::spots::Spot;
use exact::points::{Ends, Side};
use hall::shapes::Shape;
use std::cmp::Ordering;

// The spots after `from` and before `to`, where there are such ends.
#[derive(Clone, Copy)]
pub struct Shadow {
    pub from: Option<Spot>,
    pub to: Option<Spot>,
}

// How a form runs along a surface: nowhere above 0, everywhere, or above 0 after a spot or before it.
#[derive(Clone, Copy)]
enum Course {
    Nowhere,
    Everywhere,
    After(Spot),
    Before(Spot),
}

impl Spot {
    // Which of two spots comes first, from left to right. No Ord: spots of other numbers can be together, so equality would be by hand too. And not one
    // function with exact's `x_order`, whose numbers have signs and other bounds.
    pub fn order(self, other: Spot) -> Ordering
        ensures { MatchOrdering result (Before self.t self.u other.t other.u) (Together self.t self.u other.t other.u) (Before other.t other.u self.t self.u) }
    {
        (self.t * other.u).cmp(&(other.t * self.u))
    }
}

// A form's course, from its values at the ends of the surface.
fn course_of(e: Ends) -> Course
    ensures { Coursed e result }
{
    if e.from <= 0 && e.to <= 0 {
        return Course::Nowhere;
    }
    if e.from > 0 && e.to > 0 {
        return Course::Everywhere;
    }
    let turn = Spot {
        t: e.from.unsigned_abs(),
        u: e.to.unsigned_abs(),
    };
    if e.from > 0 {
        Course::Before(turn)
    } else {
        Course::After(turn)
    }
}

// The one of two spots that lies on the wanted side of the other; the second, where there is no first.
fn farther(end: Option<Spot>, spot: Spot, wanted: Ordering) -> Spot
    ensures { MatchOrdering wanted (Earlier end spot result) ⊤ (Later end spot result) }
{
    match end {
        Some(end) if end.order(spot) == wanted => end,
        _ => spot,
    }
}

impl Shadow {
    // The whole surface.
    pub(crate) fn whole() -> Shadow
        ensures from { result.from ≡ None }
        ensures to { result.to ≡ None }
    {
        Shadow {
            from: None,
            to: None,
        }
    }

    // The shadow, unless no spot is in it.
    fn opened(self) -> Option<Shadow>
        ensures { Opened self result }
    {
        match (self.from, self.to) {
            (Some(from), Some(to)) if !from.order(to).is_lt() => None,
            _ => Some(self),
        }
    }

    // The part of the shadow in which a form is above 0.
    pub(crate) fn cut(self, e: Ends) -> Option<Shadow>
        ensures { MatchOption result (Gone self e) (Cut self e) }
    {
        match course_of(e) {
            Course::Nowhere => None,
            Course::Everywhere => self.opened(),
            Course::After(spot) => Shadow {
                from: Some(farther(self.from, spot, Ordering::Greater)),
                ..self
            }
            .opened(),
            Course::Before(spot) => Shadow {
                to: Some(farther(self.to, spot, Ordering::Less)),
                ..self
            }
            .opened(),
        }
    }

    // The part of the shadow in which a surface lies to the left of a side.
    fn cut_by(self, surface: Side, side: Side) -> Option<Shadow>
        ensures { CutBy self surface side result }
    {
        self.cut(surface.against(side))
    }

    // Whether a spot is in the shadow.
    pub fn holds(self, spot: Spot) -> bool
        ensures { Decides result (Dark self spot.t spot.u) }
    {
        self.from.is_none_or(|from| from.order(spot).is_lt())
            && self.to.is_none_or(|to| spot.order(to).is_lt())
    }
}

// What a shape leaves dark of a surface, which runs from left to right.
pub fn cast<const N: usize>(shape: &Shape<N>, surface: Side) -> Option<Shadow>
    ensures { Casts (shape_of shape.now) (corner_of surface.from) (corner_of surface.to) result }
{
    shape.sides().try_fold(Shadow::whole(), |shadow, side| shadow.cut_by(surface, side))
}
