// The obstacles of a hall.
ghost use Rattle.std.specs.Prelude.{T, map, length, IfOk};
ghost use Rattle.hall.specs.Halls.{task_of};
ghost use Rattle.hall.specs.Shapes.{shape_of, drawn_within, all_within};
ghost use Rattle.obstacle.specs.Freedom.{GrownTo, Obstacles};

use crate::growing::grow;
use hall::halls::Hall;
use hall::shapes::Shape;
use std::alloc::{AllocError, Global};

// What each of several things grows to.
fn grow_each(
    heap: Global,
    load: &Shape<8>,
    things: &[Shape<8>],
) -> Result<Vec<Shape<16>>, AllocError>
    requires load { T (drawn_within 1000 load.now) }
    requires things { T (all_within 1000 things.now) }
    ensures { IfOk result (λ v. GrownTo (shape_of load.now) (map shape_of things.now) (map shape_of v.items) (length things.now)) }
{
    things.iter().map(|thing| grow(load, thing)).collect(heap)
}

// The obstacles of a hall, in the order of its things.
pub fn grow_all(heap: Global, hall: &Hall) -> Result<Vec<Shape<16>>, AllocError>
    ensures { IfOk result (λ v. Obstacles (task_of hall.now).hall (map shape_of v.items)) }
{
    let load = hall.load();
    let things = hall.things(heap)?;
    grow_each(heap, &load, things.as_slice())
}
