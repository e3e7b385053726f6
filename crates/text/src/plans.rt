// A plan owns the places of its way; an answer lends them.
ghost use Rattle.text.specs.Plans.{Lends, RepliesWith};

use crate::answers::Answer;
use exact::points::Place;
use hall::refusals::Refusal;

// A type of its own beside Answer, since it is never Accepted; one with a parameter for its places would still be lent case by case.
#[derive(Drop)]
pub enum Plan {
    Way(Vec<Place>),
    None,
    Undecided,
}

impl Plan {
    // The same, to be printed. A method and no From: it lends, as `as_slice` does.
    pub fn answer(&self) -> Answer<'_>
        ensures { Lends self.now result }
    {
        match self {
            Plan::Way(places) => Answer::Way(places.as_slice()),
            Plan::None => Answer::None,
            Plan::Undecided => Answer::Undecided,
        }
    }
}

// The reply that a plan makes, to be printed.
pub fn reply_of(planned: &Result<Plan, Refusal>) -> Result<Answer<'_>, Refusal>
    ensures { RepliesWith planned.now result }
{
    planned
        .as_ref()
        .map(Plan::answer)
        .map_err(|refusal| *refusal)
}
