// A hall with its obstacles: by them it is known which places of the hall are free.
ghost use Rattle.std.specs.Prelude.{◌≡◌, ◌^◌, map, Decides};
ghost use Rattle.algebra.specs.Hall.{Free};
ghost use Rattle.exact.specs.Points.{place_of};
ghost use Rattle.exact.specs.Sides.{PlaceNear};
ghost use Rattle.hall.specs.Halls.{task_of};
ghost use Rattle.hall.specs.Shapes.{shape_of};
ghost use Rattle.obstacle.specs.Freedom.{Obstacles};

use crate::freedom::{is_apart, is_within};
use exact::points::Place;
use hall::halls::Hall;
use hall::shapes::Shape;
use std::marker::Model;

// The obstacles are those of the hall, in the order of its things.
#[derive(Drop)]
pub struct Site<'a> {
    pub hall: &'a Hall,
    pub obstacles: &'a [Shape<16>],
}

impl<'a> Model for Site<'a> {
    ghost use Rattle.std.specs.Prelude.{map};
    ghost use Rattle.hall.specs.Halls.{task_of};
    ghost use Rattle.hall.specs.Shapes.{shape_of};
    ghost use Rattle.obstacle.specs.Freedom.{Obstacles};
    ghost use Rattle.obstacle.specs.Sites.{Ground};

    ghost Value = { Ground };

    ghost view = { λ s. record { task = task_of s.hall.now; obstacles = map shape_of s.obstacles.now } };

    ghost invariant = { λ s. Obstacles (task_of s.hall.now).hall (map shape_of s.obstacles.now) };
}

impl<'a> Site<'a> {
    pub fn new(hall: &'a Hall, obstacles: &'a [Shape<16>]) -> Site<'a>
        requires { Obstacles (task_of hall.now).hall (map shape_of obstacles.now) }
        ensures task { result.task ≡ task_of hall.entry.now }
        ensures obstacles { result.obstacles ≡ map shape_of obstacles.entry.now }
    {
        Site { hall, obstacles }
    }

    // Whether the load can stand at a place.
    pub fn is_free(&self, p: Place) -> bool
        requires { PlaceNear (2 ^ 45) (2 ^ 34) p }
        ensures { Decides result (Free self.now.task.hall (place_of p)) }
    {
        is_within(self.hall, p) && is_apart(self.obstacles, p)
    }
}
