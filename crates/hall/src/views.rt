// What shapes, halls and ways hold.
ghost use Rattle.std.specs.Prelude.{◌≡◌, ◌^◌, ◌<◌, ◌≤◌, T, map, length, IfOk, vec_len};
ghost use Rattle.algebra.specs.Hall.{corner, next};
ghost use Rattle.exact.specs.Points.{corner_of, place_of};
ghost use Rattle.exact.specs.Sides.{CornerNear};
ghost use Rattle.hall.specs.Format.{sound};
ghost use Rattle.hall.specs.Halls.{task_of};
ghost use Rattle.hall.specs.Outlines.{outline, outline_of, within, bounded};
ghost use Rattle.hall.specs.Shapes.{shape_of, drawn_within, all_within};

use crate::halls::Hall;
use crate::rounds::after;
use crate::routes::Route;
use crate::shapes::Shape;
use exact::points::{Corner, Place, Side};
use std::alloc::{AllocError, Global};

impl<const N: usize> Shape<N> {
    pub fn new(corners: [Corner; N], count: u8) -> Shape<N>
        requires few { (count ≤ N) × (length corners ≡ N) }
        requires near { T (within 2047 (outline count corners)) }
        requires sound { T (sound (outline count corners)) }
        ensures { shape_of result ≡ outline count corners.entry }
    {
        Shape { corners, count }
    }

    pub fn len(&self) -> usize
        ensures value { result ≡ length (shape_of self.now) }
        ensures bound { (3 ≤ result) × (result ≤ N) }
    {
        self.count as usize
    }

    pub fn corner(&self, i: usize) -> Corner
        requires { i < length (shape_of self.now) }
        ensures value { corner_of result ≡ corner (shape_of self.now) i }
        ensures bound { CornerNear 2047 result }
    {
        self.corners[i]
    }

    // The corners, in their order.
    pub fn corners(&self) -> &[Corner]
        ensures value { outline_of result.now ≡ shape_of self.now }
        ensures near { T (within 2047 (outline_of result.now)) }
    {
        &self.corners[..usize::from(self.count)]
    }

    // The side from corner i to the next.
    pub fn side(&self, i: usize) -> Side
        requires { i < length (shape_of self.now) }
        ensures from { corner_of result.from ≡ corner (shape_of self.now) i }
        ensures to { corner_of result.to ≡ corner (shape_of self.now) (next (length (shape_of self.now)) i) }
    {
        Side {
            from: self.corner(i),
            to: self.corner(after(self.len(), i)),
        }
    }
}

impl Hall {
    pub fn load(&self) -> Shape<8>
        ensures value { shape_of result ≡ (task_of self.now).hall.load }
        ensures bound { T (drawn_within 200 result) }
    {
        self.load
    }

    // How many things there are.
    pub fn count(&self) -> usize
        ensures value { result ≡ length (task_of self.now).hall.things }
        ensures bound { result ≤ 40 }
    {
        self.things.len()
    }

    // The things, in the order of their numbers.
    pub fn things(&self, heap: Global) -> Result<Vec<Shape<8>>, AllocError>
        ensures { IfOk result (λ v. (map shape_of v.items ≡ (task_of self.now).hall.things) × T (all_within 1000 v.items) × (vec_len v ≤ 40)) }
    {
        self.things.values().copied().collect(heap)
    }

    pub fn wide(&self) -> u16
        ensures { result ≡ (task_of self.now).hall.wide }
    {
        self.wide
    }

    pub fn high(&self) -> u16
        ensures { result ≡ (task_of self.now).hall.high }
    {
        self.high
    }

    pub fn start(&self) -> Place
        ensures value { place_of result ≡ (task_of self.now).start }
        ensures bound { T (bounded (2 ^ 20) result) }
    {
        self.start
    }

    pub fn goal(&self) -> Place
        ensures value { place_of result ≡ (task_of self.now).goal }
        ensures bound { T (bounded (2 ^ 20) result) }
    {
        self.goal
    }
}

impl Route {
    pub fn places(&self) -> &[Place]
        ensures { result.now ≡ self.now.places.items }
    {
        self.places.as_slice()
    }
}
