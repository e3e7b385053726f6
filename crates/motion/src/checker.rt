// The checker of ways: anybody may bring one.
ghost use Rattle.std.specs.Prelude.{◌≡◌, ℕ, ◌+◌, ◌-◌, ◌^◌, ◌<◌, map, length, Err, MatchOption, T, slice_index_or};
ghost use Rattle.std.specs.List.{list_all};
ghost use Rattle.exact.specs.Points.{place_of};
ghost use Rattle.hall.specs.Halls.{task_of};
ghost use Rattle.hall.specs.Outlines.{bounded};
ghost use Rattle.hall.specs.Shapes.{shape_of};
ghost use Rattle.motion.specs.Checking.{AllInHall, FirstOutside, PlacesJudged, PassesAll, EntersFirst, StretchesJudged};
ghost use Rattle.motion.specs.Driving.{Drives, Judged, ahead, stretches};
ghost use Rattle.hall.specs.Routes.{places_of};

use crate::stretches::Stretch;
use exact::orders::same_place;
use exact::points::Place;
use hall::halls::Hall;
use hall::refusals::Refusal;
use hall::routes::Route;
use hall::shapes::Shape;
use obstacle::all::grow_all;
use obstacle::freedom::is_within;
use std::alloc::Global;

// The first place that isn't in the hall.
fn first_outside(hall: &Hall, places: &[Place]) -> Option<usize>
    ensures { MatchOption result (AllInHall (task_of hall.now).hall (map place_of places.now)) (λ k. FirstOutside (task_of hall.now).hall (map place_of places.now) k) }
{
    places.iter().position(|p| !is_within(hall, *p))
}

fn check_places(hall: &Hall, places: &[Place]) -> Result<(), Refusal>
    ensures { PlacesJudged (task_of hall.now) (map place_of places.now) result }
{
    if places.is_empty() || !same_place(places[0], hall.start()) {
        return Err(Refusal::Waypoint(0));
    }
    if let Some(k) = first_outside(hall, places) {
        return Err(Refusal::Waypoint(k));
    }
    let last = places.len() - 1;
    if !same_place(places[last], hall.goal()) {
        return Err(Refusal::Waypoint(last));
    }
    Ok(())
}

// The first obstacle that a stretch enters.
pub(crate) fn first_met(obstacles: &[Shape<16>], stretch: Stretch) -> Option<usize>
    ensures { MatchOption result (PassesAll (map shape_of obstacles.now) (place_of stretch.from) (place_of stretch.to)) (λ j. EntersFirst (map shape_of obstacles.now) (place_of stretch.from) (place_of stretch.to) j) }
{
    obstacles
        .iter()
        .position(|obstacle| !stretch.is_clear(obstacle))
}

// Where each stretch of a way ends; a way of one place is a stretch from there to there.
fn stretch_ends(places: &[Place]) -> &[Place]
    ensures count { length result.now ≡ stretches (length places.now) }
    ensures each { (k : ℕ) (d : Place) → k < stretches (length places.now) → slice_index_or result.now k d ≡ slice_index_or places.now (ahead (length places.now) k) d }
{
    if places.len() > 1 {
        &places[1..]
    } else {
        places
    }
}

fn check_stretches(obstacles: &[Shape<16>], places: &[Place]) -> Result<(), Refusal>
    requires { T (list_all (bounded (2 ^ 60 - 1)) places.now) }
    ensures { StretchesJudged (map shape_of obstacles.now) (map place_of places.now) result }
{
    // An obstacle that may not be met is taken by `let .. else` (docs/DECISIONS.md, "Language forms"), so this is a loop.
    for (stretch, (from, to)) in places.iter().zip(stretch_ends(places)).enumerate() {
        let Some(thing) = first_met(
            obstacles,
            Stretch {
                from: *from,
                to: *to,
            },
        ) else {
            continue;
        };
        return Err(Refusal::Collision { stretch, thing });
    }
    Ok(())
}

// Whether a way can be driven in a hall, from its start to its goal; else what is wrong with it first. The clauses name hall, start and goal apart, as
// the laws of ways do.
pub fn check_route(heap: Global, hall: &Hall, route: &Route) -> Result<(), Refusal>
    ensures judged { Judged (task_of hall.now).hall (task_of hall.now).start (task_of hall.now).goal (places_of route.now) result }
    ensures exact { Drives (task_of hall.now).hall (task_of hall.now).start (task_of hall.now).goal (places_of route.now) → (e : _) → result ≡ Err e → e ≡ Refusal.Memory }
{
    let places = route.places();
    check_places(hall, places)?;
    let obstacles = grow_all(heap, hall)?;
    check_stretches(obstacles.as_slice(), places)
}
