// A thing grown by a load: the sides of both are walked round, merged by their directions.
ghost use Rattle.std.specs.Prelude.{◌≡◌, ◌+◌, ◌<◌, ◌≤◌, T, length, Decides, MatchOption};
ghost use Rattle.std.specs.Iterator.{at_most};
ghost use Rattle.std.specs.Ordering.{MatchOrdering};
ghost use Rattle.algebra.specs.Hall.{corner};
ghost use Rattle.exact.specs.Points.{corner_of};
ghost use Rattle.exact.specs.Sides.{CornerNear};
ghost use Rattle.hall.specs.Shapes.{shape_of, drawn_within};
ghost use Rattle.obstacle.specs.Growing.{HeightAt, vector_of, Points, round, Ahead, Onto, Begun, MetAt, IsRound, NextSide, StepsOn, MeetsNext, left};
ghost use Rattle.obstacle.specs.Growth.{minus, Grown};
ghost use Rattle.obstacle.specs.Merging.{Up, Before, Alike, Lowest, Highest};

use crate::walks::{Walk, Walks};
use exact::points::{Corner, Direction, Side};
use exact::sides::cross;
use hall::rounds::after;
use hall::shapes::Shape;
use std::cmp::Ordering;

fn way(from: Corner, to: Corner) -> Direction
    requires from { CornerNear 2047 from }
    requires to { CornerNear 2047 to }
    ensures { vector_of result ≡ minus (corner_of to) (corner_of from) }
{
    Side { from, to }.direction()
}

// Whether a direction points up, or level to the right.
fn is_up(d: Direction) -> bool
    ensures { Decides result (Up (vector_of d)) }
{
    (0, 0) < (d.dy, d.dx)
}

// Which of two directions comes first, turning left from the one to the right: one that is up before one that isn't.
fn order(d: Direction, e: Direction) -> Ordering
    requires first { Points (vector_of d) }
    requires second { Points (vector_of e) }
    ensures { MatchOrdering result (Before (vector_of d) (vector_of e)) (Alike (vector_of d) (vector_of e)) (Before (vector_of e) (vector_of d)) }
{
    is_up(e).cmp(&is_up(d)).then_with(|| 0.cmp(&cross(d, e)))
}

// How high corner i is, and on a level how far to the right.
fn height<const N: usize>(s: &Shape<N>, i: usize) -> (i64, i64)
    requires { i < length (shape_of s.now) }
    ensures { HeightAt (shape_of s.now) i result }
{
    let c = s.corner(i);
    (c.y, c.x)
}

// The lowest corner, and of those the leftmost. This and the next are two methods of the library over one key. Each says its closure's clauses: tried
// without, the call of `height` isn't proved.
fn lowest<const N: usize>(s: &Shape<N>) -> usize
    ensures { Lowest (shape_of s.now) result }
{
    (0..s.len())
        .min_by_key(
            |i|
                requires { i.now < length (shape_of s.now) }
                ensures { HeightAt (shape_of s.entry.now) i.now result }
            { height(s, *i) },
        )
        .unwrap()
}

// The highest corner, and of those the rightmost.
fn highest<const N: usize>(s: &Shape<N>) -> usize
    ensures { Highest (shape_of s.now) result }
{
    (0..s.len())
        .max_by_key(
            |i|
                requires { i.now < length (shape_of s.now) }
                ensures { HeightAt (shape_of s.entry.now) i.now result }
            { height(s, *i) },
        )
        .unwrap()
}

// One corner less another.
fn less(a: Corner, b: Corner) -> Corner
    requires first { CornerNear 1000 a }
    requires second { CornerNear 1000 b }
    ensures value { corner_of result ≡ minus (corner_of a) (corner_of b) }
    ensures bound { CornerNear 2000 result }
{
    Corner {
        x: a.x - b.x,
        y: a.y - b.y,
    }
}

impl<'a, const N: usize> Walk<'a, N> {
    // The corner reached.
    fn corner(&self) -> Corner
        ensures value { corner_of result ≡ corner (round self.now) self.now.at }
        ensures bound { CornerNear 1000 result }
    {
        self.shape.corner(self.at)
    }

    // The corner after it, if a side is left.
    fn ahead(&self) -> Option<Corner>
        ensures { MatchOption result (self.now.gone ≡ length (round self.now)) (Ahead self.now) }
    {
        if self.gone == self.shape.len() {
            return None;
        }
        Some(self.shape.corner(after(self.shape.len(), self.at)))
    }

    // One side on.
    fn on(self) -> Walk<'a, N>
        requires { self.gone < length (round self) }
        ensures { Onto self.entry result }
    {
        Walk {
            shape: self.shape,
            at: after(self.shape.len(), self.at),
            gone: self.gone + 1,
        }
    }
}

impl<'a, const M: usize, const N: usize> Walks<'a, M, N> {
    // From the lowest corner of the thing and the highest of the load.
    fn new(load: &'a Shape<M>, thing: &'a Shape<N>) -> Walks<'a, M, N>
        requires few { (M < 256) × (N < 256) }
        requires near { (T (drawn_within 1000 load.now)) × (T (drawn_within 1000 thing.now)) }
        ensures { Begun (shape_of load.now) (shape_of thing.now) result }
    {
        Walks {
            thing: Walk {
                shape: thing,
                at: lowest(thing),
                gone: 0,
            },
            load: Walk {
                shape: load,
                at: highest(load),
                gone: 0,
            },
        }
    }

    // The thing's corner less the load's.
    fn corner(&self) -> Corner
        ensures { MetAt self.now result }
    {
        less(self.thing.corner(), self.load.corner())
    }

    // Which side is next, of the thing or of the load turned round: of both where they point the same way. Where one has none left it is the other's.
    fn next_side(&self) -> Option<Ordering>
        ensures { MatchOption result (IsRound self.now) (NextSide self.now) }
    {
        match (self.thing.ahead(), self.load.ahead()) {
            (None, None) => None,
            (Some(_), None) => Some(Ordering::Less),
            (None, Some(_)) => Some(Ordering::Greater),
            (Some(to), Some(from)) => Some(order(
                way(self.thing.corner(), to),
                way(from, self.load.corner()),
            )),
        }
    }

    // The walks one step on.
    fn step(&self) -> Option<Walks<'a, M, N>>
        ensures { MatchOption result (IsRound self.now) (StepsOn self.now) }
    {
        match self.next_side()? {
            Ordering::Less => Some(Walks {
                thing: self.thing.on(),
                load: self.load,
            }),
            Ordering::Greater => Some(Walks {
                thing: self.thing,
                load: self.load.on(),
            }),
            Ordering::Equal => Some(Walks {
                thing: self.thing.on(),
                load: self.load.on(),
            }),
        }
    }
}

// The corners met on the way.
impl<'a, const M: usize, const N: usize> Iterator for Walks<'a, M, N> {
    type Item = Corner;

    ghost next_gives = { MeetsNext };

    ghost remaining = { λ s. at_most (left s) };

    fn next(&mut self) -> Option<Corner> {
        let corner = self.corner();
        *self = self.step()?;
        Some(corner)
    }
}

// The thing grown by the load: the load's point is inside it exactly where the load meets the thing.
pub fn grow<const M: usize, const N: usize, const G: usize>(
    load: &Shape<M>,
    thing: &Shape<N>,
) -> Shape<G>
    requires room { M + N ≤ G }
    requires few { G < 256 }
    requires near { (T (drawn_within 1000 load.now)) × (T (drawn_within 1000 thing.now)) }
    ensures grown { Grown (shape_of load.now) (shape_of thing.now) (shape_of result) }
    ensures few { length (shape_of result) ≤ length (shape_of load.now) + length (shape_of thing.now) }
    ensures near { T (drawn_within 2000 result) }
{
    // An array and a count, as a shape has them: shapes are values, with no heap.
    let mut corners = [Corner { x: 0, y: 0 }; G];
    let mut count = 0;
    for corner in Walks::new(load, thing) {
        corners[count as usize] = corner;
        count += 1;
    }
    Shape::new(corners, count)
}
