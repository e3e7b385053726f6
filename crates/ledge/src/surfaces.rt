// The surfaces of a hall, as values.
ghost use Rattle.std.specs.Prelude.{◌≡◌, ◌≤◌, map, length, Decides, MatchOption};
ghost use Rattle.exact.specs.Points.{corner_of};
ghost use Rattle.hall.specs.Halls.{task_of};
ghost use Rattle.hall.specs.Shapes.{shape_of};
ghost use Rattle.algebra.specs.Hall.{corner};
ghost use Rattle.ledge.specs.Landings.{form_of};
ghost use Rattle.ledge.specs.Sides.{Upper, end};
ghost use Rattle.ledge.specs.Surfaces.{Stands, above, top, obstacle as obstacle_of};
ghost use Rattle.ledge.specs.Lines.{surface_of, left_end, right_end, number, Numbered, Unnumbered};

use crate::uprights::Slope;
use exact::points::{Corner, Side};
use hall::halls::Hall;
use hall::shapes::Shape;

// Functions that take obstacles beside a surface ask that it stands among them; a type of both would have to ask that its obstacles are theirs.
#[derive(Clone, Copy)]
pub enum Surface {
    // the bottom wall
    Bottom,
    // an upper side of an obstacle
    Top { obstacle: usize, side: usize },
}

// Whether a side of a shape is an upper one. By number, as here a surface names its side.
pub fn is_upper(shape: &Shape<16>, side: usize) -> bool
    ensures { Decides result (Upper (shape_of shape.now) side) }
{
    if side >= shape.len() {
        return false;
    }
    let run = shape.side(side);
    run.to.x < run.from.x
}

// An upper side of an obstacle, both by number, as a line that runs to the right.
pub(crate) fn roof_of(obstacles: &[Shape<16>], k: usize, i: usize) -> Slope
    requires { Stands (map shape_of obstacles.now) (top k i) }
    ensures from { corner_of result.side.from ≡ end (obstacle_of (map shape_of obstacles.now) k) i }
    ensures to { corner_of result.side.to ≡ corner (obstacle_of (map shape_of obstacles.now) k) i }
{
    let run = obstacles[k].side(i);
    Slope {
        side: Side {
            from: run.to,
            to: run.from,
        },
    }
}

impl Surface {
    // Its number, by which it has its part of the lent words of a map: 16 are kept for the sides of each obstacle.
    pub fn number(self) -> usize
        requires { number (surface_of self) ≤ 1000000 }
        ensures { result ≡ number (surface_of self) }
    {
        match self {
            Surface::Bottom => 0,
            Surface::Top { obstacle, side } => 1 + (16 * obstacle + side),
        }
    }

    // The line that it lies on. That of the bottom wall has a length of its own, since a hall may have no width.
    pub(crate) fn slope(self, obstacles: &[Shape<16>]) -> Slope
        requires { Stands (map shape_of obstacles.now) (surface_of self) }
        ensures { form_of result.side ≡ above (map shape_of obstacles.now) (surface_of self) }
    {
        match self {
            Surface::Bottom => Slope {
                side: Side {
                    from: Corner { x: 0, y: 0 },
                    to: Corner { x: 1, y: 0 },
                },
            },
            Surface::Top { obstacle, side } => roof_of(obstacles, obstacle, side),
        }
    }

    // The surface as a side that runs from left to right; any shapes will do, so it asks no site.
    pub fn line(self, hall: &Hall, obstacles: &[Shape<16>]) -> Side
        requires { Stands (map shape_of obstacles.now) (surface_of self) }
        ensures from { corner_of result.from ≡ left_end (map shape_of obstacles.now) (surface_of self) }
        ensures to { corner_of result.to ≡ right_end (task_of hall.now).hall (map shape_of obstacles.now) (surface_of self) }
    {
        match self {
            Surface::Bottom => Side {
                from: Corner { x: 0, y: 0 },
                to: Corner {
                    x: hall.wide() as i64,
                    y: 0,
                },
            },
            Surface::Top { obstacle, side } => roof_of(obstacles, obstacle, side).side,
        }
    }
}

// The surface with a number, if there is one.
pub fn surface_at(obstacles: &[Shape<16>], number: usize) -> Option<Surface>
    ensures { MatchOption result (Unnumbered (map shape_of obstacles.now) number) (λ s. Numbered (map shape_of obstacles.now) number (surface_of s)) }
{
    if number == 0 {
        return Some(Surface::Bottom);
    }
    let (obstacle, side) = ((number - 1) / 16, (number - 1) % 16);
    let shape = obstacles.get(obstacle)?;
    is_upper(shape, side).then_some(Surface::Top { obstacle, side })
}
