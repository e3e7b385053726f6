// What the programs reply to the bytes that they are given.
ghost use Rattle.text.specs.Replies.{Planned, Checked};

use crate::answers::Answer;
use crate::plans::Plan;
use hall::reader::{read_hall, read_way};
use hall::refusals::Refusal;
use motion::checker::check_route;
use motion::direct::{Outlook, look_straight};
use std::alloc::Global;

// How the load of a hall can be brought from start to goal, as far as the straight stretch shows it.
pub fn plan_reply(heap: Global, bytes: &[u8]) -> Result<Plan, Refusal>
    ensures { Planned bytes.now result }
{
    let hall = read_hall(heap, bytes)?;
    Ok(match look_straight(heap, &hall)? {
        Outlook::Straight => Plan::Way(vec![in heap; hall.start(), hall.goal()]?),
        Outlook::Shut => Plan::None,
        Outlook::Open => Plan::Undecided,
    })
}

// Whether a way can be driven. What is wrong with the hall comes first, then what is wrong with the way's bytes.
pub fn check_reply(heap: Global, hall: &[u8], way: &[u8]) -> Result<Answer<'static>, Refusal>
    ensures { Checked hall.now way.now result }
{
    let task = read_hall(heap, hall)?;
    let route = read_way(heap, way)?;
    check_route(heap, &task, &route)?;
    Ok(Answer::Accepted)
}
