// What the straight stretch from start to goal shows of a hall.
ghost use Rattle.std.specs.Prelude.{IfOk};
ghost use Rattle.hall.specs.Halls.{task_of};
ghost use Rattle.motion.specs.Direct.{Seen};

use crate::checker::first_met;
use crate::stretches::Stretch;
use hall::halls::Hall;
use obstacle::all::grow_all;
use obstacle::sites::Site;
use std::alloc::{AllocError, Global};

#[derive(Clone, Copy, Debug)]
pub enum Outlook {
    // the stretch is free, so it is a way
    Straight,
    // the start or the goal isn't free, so there is no way
    Shut,
    // both are free, and the stretch isn't: there may be a way round
    Open,
}

// What it shows among the obstacles of the hall.
fn look_among(site: &Site) -> Outlook
    ensures { Seen site.now.task.hall site.now.task.start site.now.task.goal result }
{
    let (start, goal) = (site.hall.start(), site.hall.goal());
    if !site.is_free(start) {
        return Outlook::Shut;
    }
    if !site.is_free(goal) {
        return Outlook::Shut;
    }
    let stretch = Stretch {
        from: start,
        to: goal,
    };
    match first_met(site.obstacles, stretch) {
        Some(_) => Outlook::Open,
        None => Outlook::Straight,
    }
}

// Whether the straight stretch from start to goal is a way, or shows at once that there is none. Hall, start and goal stand apart, as in `check_route`.
pub fn look_straight(heap: Global, hall: &Hall) -> Result<Outlook, AllocError>
    ensures { IfOk result (λ o. Seen (task_of hall.now).hall (task_of hall.now).start (task_of hall.now).goal o) }
{
    let obstacles = grow_all(heap, hall)?;
    Ok(look_among(&Site::new(hall, obstacles.as_slice())))
}
