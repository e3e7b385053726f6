// Which places are free: those in the hall that are inside no obstacle.
ghost use Rattle.std.specs.Prelude.{◌≡◌, ◌*◌, ◌^◌, ◌<◌, ◌≤◌, map, length, pos, ◌≤ℤ◌, ◌<ℤ◌, Decides};
ghost use Rattle.algebra.specs.Hall.{Inside, Within, Free, edge};
ghost use Rattle.exact.specs.Points.{place_of};
ghost use Rattle.exact.specs.Sides.{PlaceNear};
ghost use Rattle.hall.specs.Halls.{task_of};
ghost use Rattle.hall.specs.Shapes.{shape_of};
ghost use Rattle.obstacle.specs.Freedom.{FreeExactly, Apart, Obstacles};

use exact::points::Place;
use hall::halls::Hall;
use hall::shapes::Shape;

// A place is free exactly if it is in the hall and inside no obstacle.
pub fn free_exactly()
    ensures { FreeExactly }
{}

// Whether a place is inside a shape; its edge is not.
pub fn is_inside<const N: usize>(shape: &Shape<N>, p: Place) -> bool
    requires { PlaceNear (2 ^ 45) (2 ^ 34) p }
    ensures { Decides result (Inside (shape_of shape.now) (place_of p)) }
{
    shape.sides().all(|side| side.value(p) > 0)
}

// Whether z / w is from 0 to room.
fn has_room(z: i64, w: u64, room: u16) -> bool
    ensures { Decides result ((pos 0 ≤ℤ z) × (z ≤ℤ pos (room * w))) }
{
    0 <= z && z as i128 <= room as i128 * w as i128
}

// Whether the load's point may be there.
pub fn is_within(hall: &Hall, p: Place) -> bool
    ensures { Decides result (Within (task_of hall.now).hall (place_of p)) }
{
    has_room(p.x, p.w, hall.wide()) && has_room(p.y, p.w, hall.high())
}

// Whether a place is inside none of the obstacles.
pub(crate) fn is_apart(obstacles: &[Shape<16>], p: Place) -> bool
    requires { PlaceNear (2 ^ 45) (2 ^ 34) p }
    ensures { Decides result (Apart (map shape_of obstacles.now) (place_of p)) }
{
    obstacles.iter().all(|obstacle| !is_inside(obstacle, p))
}
