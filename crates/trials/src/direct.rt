// Whether a load meets a thing, by another method than obstacles: two convex shapes are apart exactly if a side of one of them has no corner of the
// other to its left. All numbers are doubled, so that places may be at halves; they are small, and nothing wraps.
use exact::points::{Corner, Place};
use hall::shapes::Shape;
use obstacle::freedom::is_inside;

// A shape at twice its size, moved.
#[derive(Clone, Copy)]
struct Moved<'a> {
    shape: &'a Shape<8>,
    dx: i64,
    dy: i64,
}

impl Moved<'_> {
    // Where a corner of the shape comes to be.
    fn corner(&self, c: Corner) -> Corner {
        Corner {
            x: c.x.wrapping_mul(2).wrapping_add(self.dx),
            y: c.y.wrapping_mul(2).wrapping_add(self.dy),
        }
    }

    // Whether no corner is to the left of the line from a to b.
    fn has_none_left(&self, a: Corner, b: Corner) -> bool {
        self.shape
            .corners()
            .iter()
            .all(|c| turn(a, b, self.corner(*c)) <= 0)
    }

    // Whether a side has no corner of the other shape to its left.
    fn has_parting_side(&self, other: &Moved) -> bool {
        self.shape.sides().any(|side| other.has_none_left(
            self.corner(side.from),
            self.corner(side.to),
        ))
    }

    // Whether the two have a place inside in common.
    fn meets(&self, other: &Moved) -> bool {
        !self.has_parting_side(other) && !other.has_parting_side(self)
    }
}

// Above 0 if c is to the left of the line from a to b. Not exact's `turn`: a test should share no code with what it tests.
fn turn(a: Corner, b: Corner, c: Corner) -> i64 {
    let left = b.x.wrapping_sub(a.x).wrapping_mul(c.y.wrapping_sub(a.y));
    let right = b.y.wrapping_sub(a.y).wrapping_mul(c.x.wrapping_sub(a.x));
    left.wrapping_sub(right)
}

// At how many of 101 by 61 places, whose coordinates are halves, the obstacle says the same.
pub fn same_places(load: &Shape<8>, thing: &Shape<8>, obstacle: &Shape<16>) -> usize {
    let thing = Moved {
        shape: thing,
        dx: 0,
        dy: 0,
    };
    let is_same = |x: i64, y: i64| {
        let load = Moved {
            shape: load,
            dx: x,
            dy: y,
        };
        is_inside(obstacle, Place { x, y, w: 2 }) == load.meets(&thing)
    };
    let in_row = |y: i16| {
        (-20i16..=80)
            .filter(|x| is_same(i64::from(*x), i64::from(y)))
            .count()
    };
    (-20i16..=40).map(in_row).fold(0, usize::saturating_add)
}
