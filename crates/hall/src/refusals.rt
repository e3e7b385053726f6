// Why an input is refused, and where. What each case is numbered, which places it names and how it prints is said in specs/Refusals.antt.
ghost use Rattle.std.specs.Prelude.{◌≡◌, Some};
ghost use Rattle.hall.specs.declared.refusals.Refusal.TheVariants.{Memory};
ghost use Rattle.hall.specs.Format.{unless};
ghost use Rattle.hall.specs.Outlines.{Tells};
ghost use Rattle.hall.specs.Refusals.{refusal_text};

use std::alloc::{AllocError, AllocFailed};
use std::error::Error;
use std::fmt;

// The slices that a caller lends to the planner.
#[derive(Clone, Copy, Debug, PartialEq, Eq)]
pub enum Lent {
    Map,
    Work,
    Way,
}

#[derive(Clone, Copy, Debug, PartialEq, Eq)]
pub enum Refusal {
    // the bytes end too early, and there are so many; or they go on, and this is the first too many
    Length(usize),
    // the number that begins at this byte is out of range
    Number(usize),
    // the count at this byte is out of range
    Count(usize),
    // the shape doesn't bend to the left, or goes round more than once, at the corner that begins at this byte
    Bend(usize),
    // this slice is too short
    Slice(Lent),
    // the way's place of this number isn't in the hall, or isn't the start or end that is asked for
    Waypoint(usize),
    // on this stretch of the way the load meets this thing
    Collision { stretch: usize, thing: usize },
    // no memory could be had
    Memory,
}

impl fmt::Display for Refusal {
    ghost output = { λ r. Some (refusal_text r) };

    fn fmt<W: fmt::Write>(&self, f: &mut fmt::Formatter<W>) -> fmt::Result {
        match *self {
            Refusal::Length(at) => write!(f, "refused 1 at {at}"),
            Refusal::Number(at) => write!(f, "refused 2 at {at}"),
            Refusal::Count(at) => write!(f, "refused 3 at {at}"),
            Refusal::Bend(at) => write!(f, "refused 4 at {at}"),
            Refusal::Slice(lent) => write!(f, "refused 5 at {}", lent as usize),
            Refusal::Waypoint(at) => write!(f, "refused 6 at {at}"),
            Refusal::Collision { stretch, thing } => write!(f, "refused 7 at {stretch} {thing}"),
            Refusal::Memory => write!(f, "refused 8 at 0"),
        }
    }
}

impl Error for Refusal {}

impl From<AllocError> for Refusal {
    ghost from_gives = { λ _ e. e ≡ Memory };

    fn from(_error: AllocError) -> Self {
        Self::Memory
    }
}

impl<T: Drop> From<AllocFailed<T>> for Refusal {
    ghost from_gives = { λ _ e. e ≡ Memory };

    fn from(failed: AllocFailed<T>) -> Self {
        Refusal::from(AllocError::from(failed))
    }
}

// Refuses, unless a test holds.
pub(crate) fn demand(holds: bool, refusal: Refusal) -> Result<(), Refusal>
    ensures { Tells result (unless holds refusal) }
{
    if holds { Ok(()) } else { Err(refusal) }
}
