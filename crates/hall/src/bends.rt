// Whether corners in order make a sound shape, and where the first of them that doesn't begins.
ghost use Rattle.std.specs.Prelude.{◌≡◌, ◌+◌, ◌*◌, ◌^◌, ◌<◌, ◌≤◌, T, length};
ghost use Rattle.algebra.specs.Hall.{at, corner, edge};
ghost use Rattle.hall.specs.Format.{bends_left, right_of_none, not_again, bend_fault};
ghost use Rattle.hall.specs.Outlines.{outline_of, within, Tells};

use crate::refusals::{Refusal, demand};
use crate::rounds::after;
use exact::points::Corner;
use exact::sides::turn;

// Corners in order, the first of which begins at the byte `from`.
#[derive(Clone, Copy)]
pub(crate) struct Drawing<'a> {
    pub corners: &'a [Corner],
    pub from: usize,
    ghost few: { length corners.now ≤ 8 },
    ghost near: { T (within 2047 (outline_of corners.now)) },
    ghost early: { from < 2 ^ 33 },
}

impl Drawing<'_> {
    // The value of side i at corner j.
    fn edge(&self, i: usize, j: usize) -> i64
        requires side { i < length self.now.corners.now }
        requires corner { j < length self.now.corners.now }
        ensures { result ≡ edge (outline_of self.now.corners.now) i (at (corner (outline_of self.now.corners.now) j)) }
    {
        let corners = self.corners;
        turn(corners[i], corners[after(corners.len(), i)], corners[j])
    }

    // Whether the bend after side i is to the left.
    fn bends_left(&self, i: usize) -> bool
        requires { i < length self.now.corners.now }
        ensures { result ≡ bends_left (outline_of self.now.corners.now) i }
    {
        let n = self.corners.len();
        self.edge(i, after(n, after(n, i))) > 0
    }

    // Whether corner j is to the right of no side.
    fn covers(&self, j: usize) -> bool
        requires { j < length self.now.corners.now }
        ensures { result ≡ right_of_none (outline_of self.now.corners.now) j }
    {
        (0..self.corners.len()).all(|i| self.edge(i, j) >= 0)
    }

    // Whether corner j isn't corner 0 again.
    fn is_new(&self, j: usize) -> bool
        requires { j < length self.now.corners.now }
        ensures { result ≡ not_again (outline_of self.now.corners.now) j }
    {
        j == 0 || self.corners[j] != self.corners[0]
    }

    // The refusal of corner k.
    fn bend(&self, k: usize) -> Refusal
        requires { k < 8 }
        ensures { result ≡ Refusal.Bend (self.now.from + 4 * k) }
    {
        Refusal::Bend(self.from + 4 * k)
    }

    // Refuses corners that don't make a sound shape.
    pub(crate) fn check(&self) -> Result<(), Refusal>
        ensures { Tells result (bend_fault (outline_of self.now.corners.now) self.now.from) }
    {
        let n = self.corners.len();
        (0..n).try_for_each(|k| demand(self.bends_left(k), self.bend(after(n, k))))?;
        (0..n).try_for_each(|k| demand(self.covers(k), self.bend(k)))?;
        (0..n).try_for_each(|k| demand(self.is_new(k), self.bend(k)))
    }
}
