// What of a surface is dark: beyond a wall of the hall, or inside an obstacle.
ghost use Rattle.std.specs.Prelude.{◌≡◌, ◌+◌, ◌^◌, ◌<◌, ◌≤◌, None, map, length, MatchOption};
ghost use Rattle.algebra.specs.Hall.{at};
ghost use Rattle.algebra.specs.Near.{Near};
ghost use Rattle.exact.specs.Points.{corner_of};
ghost use Rattle.exact.specs.Sides.{CornerNear};
ghost use Rattle.hall.specs.Halls.{task_of};
ghost use Rattle.hall.specs.Shapes.{shape_of};
ghost use Rattle.ledge.specs.Lights.{past, IsBar, Bars, Lights};

use crate::shadows::{Shadow, cast};
use exact::points::{Corner, Ends, Side};
use hall::halls::Hall;
use hall::shapes::Shape;

// The walls of a hall.
#[derive(Clone, Copy)]
enum Wall {
    Left,
    Right,
    Lower,
    Upper,
}

// What can bar places of a surface.
#[derive(Clone, Copy)]
enum Bar<'a> {
    Wall(Wall),
    Obstacle(&'a Shape<16>),
}

impl Wall {
    // How far a corner is beyond the wall.
    fn beyond(self, hall: &Hall, corner: Corner) -> i64
        requires { CornerNear 2047 corner }
        ensures value { result ≡ past (task_of hall.now).hall self (at (corner_of corner)) }
        ensures bound { Near (2 ^ 25) result }
    {
        match self {
            Wall::Left => -corner.x,
            Wall::Right => corner.x - hall.wide() as i64,
            Wall::Lower => -corner.y,
            Wall::Upper => corner.y - hall.high() as i64,
        }
    }
}

// The bar with number j, if there is one: the four walls come first, then the obstacles. By number, since bar j has
// its shadow at j in what `cast_all` answers; four arms are as plain as a table of walls.
fn bar_at(obstacles: &[Shape<16>], j: usize) -> Option<Bar<'_>>
    ensures { MatchOption result (4 + length obstacles.now ≤ j) (IsBar (map shape_of obstacles.now) j) }
{
    match j {
        0 => Some(Bar::Wall(Wall::Left)),
        1 => Some(Bar::Wall(Wall::Right)),
        2 => Some(Bar::Wall(Wall::Lower)),
        3 => Some(Bar::Wall(Wall::Upper)),
        _ => obstacles.get(j - 4).map(Bar::Obstacle),
    }
}

// What the bar with number j leaves dark; any shapes will do, so it asks no site.
fn shadow_of(hall: &Hall, obstacles: &[Shape<16>], surface: Side, j: usize) -> Option<Shadow>
    ensures bar { j < 4 + length obstacles.now → Bars (task_of hall.now).hall (map shape_of obstacles.now) (corner_of surface.from) (corner_of surface.to) j result }
    ensures none { 4 + length obstacles.now ≤ j → result ≡ None }
{
    match bar_at(obstacles, j)? {
        Bar::Wall(wall) => Shadow::whole().cut(Ends {
            from: wall.beyond(hall, surface.from),
            to: wall.beyond(hall, surface.to),
        }),
        Bar::Obstacle(obstacle) => cast(obstacle, surface),
    }
}

// All shadows on a surface; any shapes will do, so it asks no site. There is no heap here, so the array has room for as many as can be.
pub fn cast_all(hall: &Hall, obstacles: &[Shape<16>], surface: Side) -> [Option<Shadow>; 44]
    requires { length obstacles.now ≤ 40 }
    ensures { Lights (task_of hall.now).hall (map shape_of obstacles.now) (corner_of surface.from) (corner_of surface.to) result }
{
    // By number, over the bars that there are: `from_fn` would ask for all of the array.
    let mut shadows = [None; 44];
    for j in 0..4 + obstacles.len() {
        shadows[j] = shadow_of(hall, obstacles, surface, j);
    }
    shadows
}
