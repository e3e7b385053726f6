// How two surfaces, and two ledges, lie to each other.
ghost use Rattle.std.specs.Prelude.{Decides};
ghost use Rattle.ledge.specs.Contacts.{RunsRight, IsInLine, MetAs, MeetingNear, Shared, segment};
ghost use Rattle.ledge.specs.Parts.{LedgeNear};

use crate::parts::Ledge;
use exact::meets::meet;
use exact::orders::x_order;
use exact::points::{Place, Side};

// How two surfaces lie to each other: no place is on both, one is, or they lie in one line.
#[derive(Clone, Copy)]
pub enum Meeting {
    Apart,
    Crossing(Place),
    InLine,
}

// Whether the ends of each lie on the line of the other.
fn is_in_line(a: Side, b: Side) -> bool
    ensures { Decides result (IsInLine (segment a) (segment b)) }
{
    let (f, g) = (a.against(b), b.against(a));
    f.from == 0 && f.to == 0 && g.from == 0 && g.to == 0
}

// How two surfaces lie to each other, of which at most one is a single place.
pub fn meeting_of(a: Side, b: Side) -> Meeting
    requires { RunsRight (segment a) (segment b) }
    ensures { MetAs (segment a) (segment b) result }
{
    match meet(a, b) {
        Some(place) => Meeting::Crossing(place),
        None if is_in_line(a, b) => Meeting::InLine,
        None => Meeting::Apart,
    }
}

impl Meeting {
    // A place that two ledges have in common, one of each surface.
    pub fn common(self, l: Ledge, m: Ledge) -> Option<Place>
        requires met { MeetingNear self }
        requires first { LedgeNear l }
        requires second { LedgeNear m }
        ensures { Shared self l m result }
    {
        let place = match self {
            Meeting::Apart => None,
            Meeting::Crossing(place) => Some(place),
            Meeting::InLine if x_order(l.from, m.from).is_lt() => Some(m.from),
            Meeting::InLine => Some(l.from),
        };
        place.filter(|place| l.holds(*place) && m.holds(*place))
    }
}
