// Whether bytes are those of a task or of a way that is taken; else their first fault. Nothing is stored here, so that no refusal waits on memory.
ghost use Rattle.std.specs.Prelude.{◌≡◌, ℕ, ◌+◌, ◌-◌, ◌*◌, ◌^◌, ◌<◌, ◌≤◌, ◌&&◌, length, nat_le, slice_index_or};
ghost use Rattle.exact.specs.Points.{corner_of, zero};
ghost use Rattle.hall.specs.Bytes.{byte, little, signed_2, signed_8};
ghost use Rattle.hall.specs.Format.{near, unless, first_below, number_at, corner_at, past, shape_fault, place_fault, task_fault, way_fault};
ghost use Rattle.hall.specs.Format.{count_from, thing_count, start_from};
ghost use Rattle.hall.specs.Outlines.{Tells};

use crate::bends::Drawing;
use crate::numbers::Tail;
use crate::refusals::{Refusal, demand};
use exact::points::Corner;
use std::array::from_fn;

// How large the numbers of corners and places may be, and how many things there may be.
const LOAD_LIMIT: u64 = 200;

const THING_LIMIT: u64 = 1000;

const END_LIMIT: u64 = 1 << 20;

const WAY_LIMIT: u64 = (1 << 60) - 1;

// Counts and weights out of range are met by a `match` on what the bytes say, as docs/DECISIONS.md has it under "Language forms".
fn check_count(n: u8, at: usize) -> Result<(), Refusal>
    ensures { Tells result (unless (nat_le 3 n && nat_le n 8) (Refusal.Count at)) }
{
    match n {
        3..=8 => Ok(()),
        _ => Err(Refusal::Count(at)),
    }
}

fn check_thing_count(n: u8, at: usize) -> Result<(), Refusal>
    ensures { Tells result (unless (nat_le n 40) (Refusal.Count at)) }
{
    match n {
        0..=40 => Ok(()),
        _ => Err(Refusal::Count(at)),
    }
}

// Numbers are named by how many bytes further on they begin; a shape or place that is checked whole begins at the first byte.
impl<'a> Tail<'a> {
    fn check_wall(&self, k: u16) -> Result<(), Refusal>
        ensures { Tells result (unless (nat_le (little 2 self.now.bytes.now (self.now.at + k)) 1000) (Refusal.Number (self.now.at + k))) }
    {
        demand(self.u16(k) <= 1000, Refusal::Number(self.index(k)))
    }

    // Refuses the number at k, which is z, unless it is near 0.
    fn check_near(&self, k: u16, z: i64, limit: u64) -> Result<(), Refusal>
        ensures { Tells result (unless (near limit z) (Refusal.Number (self.now.at + k))) }
    {
        demand(z.unsigned_abs() <= limit, Refusal::Number(self.index(k)))
    }

    fn check_numbers(&self, limit: u64) -> Result<(), Refusal>
        ensures { Tells result (first_below (2 * byte self.now.bytes.now self.now.at) (number_at limit self.now.bytes.now self.now.at)) }
    {
        (0..2 * u16::from(self.byte())).try_for_each(|i| {
            let k = 1 + 2 * i;
            self.check_near(k, self.i16(k), limit)
        })
    }

    fn corner(&self, k: u16) -> Corner
        requires { k < 2 ^ 15 }
        ensures { corner_of result ≡ corner_at self.now.bytes.now (self.now.at + k) }
    {
        Corner {
            x: self.i16(k),
            y: self.i16(k + 2),
        }
    }

    // The first eight corners, of which a shape has as many as it says.
    pub(crate) fn corners(&self) -> [Corner; 8]
        ensures { (k : ℕ) → k < 8 → corner_of (slice_index_or result k zero) ≡ corner_at self.now.bytes.now (self.now.at + 1 + 4 * k) }
    {
        from_fn(|k| self.corner(1 + 4 * k as u16))
    }

    // Refuses a shape.
    fn check_shape(&self, limit: u64) -> Result<(), Refusal>
        requires { limit ≤ 2047 }
        ensures { Tells result (shape_fault limit self.now.bytes.now self.now.at) }
    {
        let n = self.byte();
        check_count(n, self.at as usize)?;
        self.check_numbers(limit)?;
        let corners = self.corners();
        let drawing = Drawing {
            corners: &corners[0..n as usize],
            from: self.index(1),
        };
        drawing.check()
    }

    fn check_weight(&self, k: u16, limit: u64) -> Result<(), Refusal>
        ensures { Tells result (unless (nat_le 1 (little 8 self.now.bytes.now (self.now.at + k)) && nat_le (little 8 self.now.bytes.now (self.now.at + k)) limit) (Refusal.Number (self.now.at + k))) }
    {
        match self.u64(k) {
            0 => Err(Refusal::Number(self.index(k))),
            w => demand(w <= limit, Refusal::Number(self.index(k))),
        }
    }

    // Refuses a place.
    fn check_place(&self, limit: u64) -> Result<(), Refusal>
        ensures { Tells result (place_fault limit self.now.bytes.now self.now.at) }
    {
        self.check_near(0, self.i64(0), limit)?;
        self.check_near(8, self.i64(8), limit)?;
        self.check_weight(16, limit)
    }

    // What follows after a shape.
    pub(crate) fn past_shape(&self) -> Tail<'a>
        requires { self.now.at < 2 ^ 31 }
        ensures bytes { result.bytes ≡ self.now.bytes }
        ensures at { result.at ≡ self.now.at + 1 + 4 * byte self.now.bytes.now self.now.at }
        ensures bound { result.at ≤ self.now.at + 1021 }
    {
        Tail {
            bytes: self.bytes,
            at: self.at + 1 + 4 * u32::from(self.byte()),
        }
    }

    // What follows after n shapes.
    fn past_shapes(&self, n: u8) -> Tail<'a>
        requires { self.now.at < 2 ^ 20 }
        ensures bytes { result.bytes ≡ self.now.bytes }
        ensures at { result.at ≡ past n self.now.bytes.now self.now.at }
        ensures bound { result.at ≤ self.now.at + 1021 * n }
    {
        (0..n).fold(*self, |rest, _| rest.past_shape())
    }
}

// The bytes of a task, and where their parts begin, as their counts say.
#[derive(Clone, Copy)]
pub(crate) struct Layout<'a> {
    pub bytes: &'a [u8],
    pub count_from: u32,
    pub things: u8,
    pub start_from: u32,
    ghost early: { (count_from ≤ 1025) × (start_from ≤ 261381) },
}

pub(crate) fn lay_out(bytes: &[u8]) -> Layout<'_>
    ensures bytes { result.bytes ≡ bytes.entry }
    ensures count_from { result.count_from ≡ count_from bytes.entry.now }
    ensures things { result.things ≡ thing_count bytes.entry.now }
    ensures start_from { result.start_from ≡ start_from bytes.entry.now }
{
    let load = Tail { bytes, at: 4 };
    let rest = load.past_shape();
    let things = Tail {
        bytes,
        at: rest.at + 1,
    };
    let n = rest.byte();
    Layout {
        bytes,
        count_from: rest.at,
        things: n,
        start_from: things.past_shapes(n).at,
    }
}

impl<'a> Layout<'a> {
    // What begins with the first thing.
    pub(crate) fn first_thing(&self) -> Tail<'a>
        ensures bytes { result.bytes ≡ self.now.bytes }
        ensures at { result.at ≡ self.now.count_from + 1 }
    {
        Tail {
            bytes: self.bytes,
            at: self.count_from + 1,
        }
    }

    fn check_things(&self) -> Result<(), Refusal>
        ensures { Tells result (first_below self.now.things (λ k. shape_fault 1000 self.now.bytes.now (past k self.now.bytes.now (self.now.count_from + 1)))) }
    {
        // A `for`: of a `try_fold` the `Tail` at the end would have to be thrown away.
        let mut thing = self.first_thing();
        for _ in 0..self.things {
            thing.check_shape(THING_LIMIT)?;
            thing = thing.past_shape();
        }
        Ok(())
    }
}

// Refuses bytes that aren't those of a task that is taken.
pub(crate) fn check_task(bytes: &[u8]) -> Result<(), Refusal>
    ensures { Tells result (task_fault bytes.now) }
{
    let layout = lay_out(bytes);
    let start = layout.start_from;
    let goal = start + 24;
    let due = goal as usize + 24;
    demand(due <= bytes.len(), Refusal::Length(bytes.len()))?;
    Tail { bytes, at: 0 }.check_wall(0)?;
    Tail { bytes, at: 0 }.check_wall(2)?;
    Tail { bytes, at: 4 }.check_shape(LOAD_LIMIT)?;
    check_thing_count(layout.things, layout.count_from as usize)?;
    layout.check_things()?;
    Tail { bytes, at: start }.check_place(END_LIMIT)?;
    Tail { bytes, at: goal }.check_place(END_LIMIT)?;
    demand(bytes.len() <= due, Refusal::Length(due))
}

fn check_places(bytes: &[u8], n: u16) -> Result<(), Refusal>
    ensures { Tells result (first_below n (λ k. place_fault (2 ^ 60 - 1) bytes.now (2 + 24 * k))) }
{
    (0..u32::from(n)).try_for_each(|k| {
        let at = 2 + 24 * k;
        Tail { bytes, at }.check_place(WAY_LIMIT)
    })
}

// Refuses bytes that aren't those of a well-formed way.
pub(crate) fn check_way(bytes: &[u8]) -> Result<(), Refusal>
    ensures { Tells result (way_fault bytes.now) }
{
    let n = Tail { bytes, at: 0 }.u16(0);
    let due = 2 + 24 * n as usize;
    demand(due <= bytes.len(), Refusal::Length(bytes.len()))?;
    check_places(bytes, n)?;
    demand(bytes.len() <= due, Refusal::Length(due))
}
