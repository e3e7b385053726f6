// On which side of a line a place lies, and where lines point, in 64 bits.
ghost use Rattle.std.specs.Prelude.{◌≡◌, ◌^◌, ◌-ℤ◌, ◌*ℤ◌};
ghost use Rattle.algebra.specs.Hall.{side, at};
ghost use Rattle.algebra.specs.Near.{Near};
ghost use Rattle.exact.specs.Points.{corner_of, place_of};
ghost use Rattle.exact.specs.Sides.{CornerNear, PlaceNear};

use crate::points::{Corner, Direction, Place, Side};

impl From<Corner> for Place {
    ghost from_gives = { λ c p. place_of p ≡ at (corner_of c) };

    fn from(corner: Corner) -> Place {
        Place {
            x: corner.x,
            y: corner.y,
            w: 1,
        }
    }
}

impl Side {
    // Above 0 if p lies to the left of the side's line, 0 on it, below 0 to the right.
    pub fn value(self, p: Place) -> i64
        requires { PlaceNear (2 ^ 45) (2 ^ 34) p }
        ensures value { result ≡ side (corner_of self.from) (corner_of self.to) (place_of p) }
        ensures bound { Near (2 ^ 59) result }
    {
        let run = self.direction();
        let w = p.w as i64;
        run.dx * (p.y - self.from.y * w) - run.dy * (p.x - self.from.x * w)
    }

    pub fn direction(self) -> Direction
        ensures dx { result.dx ≡ self.to.x -ℤ self.from.x }
        ensures dy { result.dy ≡ self.to.y -ℤ self.from.y }
    {
        Direction {
            dx: self.to.x - self.from.x,
            dy: self.to.y - self.from.y,
        }
    }
}

// On which side of the line from a to b the corner c lies.
pub fn turn(a: Corner, b: Corner, c: Corner) -> i64
    requires a { CornerNear 2047 a }
    requires b { CornerNear 2047 b }
    requires c { CornerNear 2047 c }
    ensures value { result ≡ side (corner_of a) (corner_of b) (at (corner_of c)) }
    ensures bound { Near (2 ^ 25) result }
{
    (b.x - a.x) * (c.y - a.y) - (b.y - a.y) * (c.x - a.x)
}

// Above 0 if v points to the left of u, 0 if the two are parallel, below 0 if v points to the right.
pub fn cross(u: Direction, v: Direction) -> i64
    ensures value { result ≡ (u.dx *ℤ v.dy) -ℤ (u.dy *ℤ v.dx) }
    ensures bound { Near (2 ^ 25) result }
{
    u.dx * v.dy - u.dy * v.dx
}
