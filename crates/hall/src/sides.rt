// The sides of a shape, one after another.
ghost use Rattle.std.specs.Prelude.{◌≡◌, T};
ghost use Rattle.hall.specs.Outlines.{outline_of, within};
ghost use Rattle.hall.specs.Shapes.{shape_of};

use crate::rounds::after;
use crate::shapes::Shape;
use exact::points::{Corner, Side};

// A walk round corners, from the first side to the last. A type of its own, since a function can't answer `impl Iterator`.
#[derive(Drop)]
pub struct Sides<'a> {
    corners: &'a [Corner],
    at: usize,
    ghost near: { T (within 2047 (outline_of corners.now)) },
}

impl<'a> Sides<'a> {
    ghost use Rattle.hall.specs.Sides.{sides_left, sides_of};

    fn of(corners: &'a [Corner]) -> Sides<'a>
        requires { T (within 2047 (outline_of corners.now)) }
        ensures { sides_left result ≡ sides_of (outline_of corners.entry.now) }
    {
        Sides { corners, at: 0 }
    }
}

impl<const N: usize> Shape<N> {
    ghost use Rattle.hall.specs.Sides.{sides_left, sides_of};

    // The sides, in their order.
    pub fn sides(&self) -> Sides<'_>
        ensures { sides_left result ≡ sides_of (shape_of self.now) }
    {
        Sides::of(self.corners())
    }
}

impl<'a> Iterator for Sides<'a> {
    type Item = Side;

    ghost use Rattle.std.specs.Iterator.{YieldsFirstBy, item_count};
    ghost use Rattle.hall.specs.Sides.{pair_of, sides_left};

    ghost next_gives = { YieldsFirstBy pair_of sides_left };

    ghost remaining = { item_count sides_left };

    fn next(&mut self) -> Option<Side> {
        if self.at >= self.corners.len() {
            return None;
        }
        let side = Side {
            from: self.corners[self.at],
            to: self.corners[after(self.corners.len(), self.at)],
        };
        self.at += 1;
        Some(side)
    }
}
