// Halls and ways from their bytes.
ghost use Rattle.std.specs.Prelude.{◌≡◌, ℕ, ◌+◌, ◌*◌, ◌^◌, ◌<◌, ◌≤◌, map, length, IfOk, MatchResult};
ghost use Rattle.std.specs.BTreeMap.{values, btree_map_len, IsOrdered};
ghost use Rattle.std.specs.Ordering.{nat_cmp};
ghost use Rattle.exact.specs.Points.{place_of};
ghost use Rattle.hall.specs.Format.{shape_at, shapes_at, place_at, places_at, past};
ghost use Rattle.hall.specs.Reading.{Drawn, TaskRead, WayRead};
ghost use Rattle.hall.specs.Shapes.{shape_of};

use crate::audit::{Layout, check_task, check_way, lay_out};
use crate::halls::Hall;
use crate::numbers::Tail;
use crate::refusals::Refusal;
use crate::routes::Route;
use crate::shapes::Shape;
use exact::points::Place;
use std::alloc::{AllocError, Global};
use std::collections::BTreeMap;

impl Tail<'_> {
    fn shape(&self) -> Shape<8>
        requires { Drawn 2047 (shape_at self.now.bytes.now self.now.at) }
        ensures { shape_of result ≡ shape_at self.now.bytes.now self.now.at }
    {
        Shape {
            corners: self.corners(),
            count: self.byte(),
        }
    }

    fn place(&self) -> Place
        ensures { place_of result ≡ place_at self.now.bytes.now self.now.at }
    {
        Place {
            x: self.i64(0),
            y: self.i64(8),
            w: self.u64(16),
        }
    }
}

impl Layout<'_> {
    // The things, by their numbers, which are the keys. A `for`: each turn may want memory, and moves on to where the next thing begins.
    fn read_things(&self, heap: Global) -> Result<BTreeMap<u8, Shape<8>>, Refusal>
        requires { (k : ℕ) → k < self.now.things → Drawn 2047 (shape_at self.now.bytes.now (past k self.now.bytes.now (self.now.count_from + 1))) }
        ensures { MatchResult result (λ m. (map shape_of (values m) ≡ shapes_at self.now.things self.now.bytes.now (self.now.count_from + 1)) × (btree_map_len m ≡ self.now.things) × IsOrdered nat_cmp m) (λ e. e ≡ Refusal.Memory) }
    {
        let mut things = BTreeMap::new(heap);
        let mut thing = self.first_thing();
        for k in 0..self.things {
            things.insert(k, thing.shape())?;
            thing = thing.past_shape();
        }
        Ok(things)
    }
}

// Reads a hall, or says what is wrong with its bytes.
pub fn read_hall(heap: Global, bytes: &[u8]) -> Result<Hall, Refusal>
    ensures { TaskRead bytes.now result }
{
    check_task(bytes)?;
    let layout = lay_out(bytes);
    let walls = Tail { bytes, at: 0 };
    let load = Tail { bytes, at: 4 };
    let start = layout.start_from;
    let goal = start + 24;
    let things = layout.read_things(heap)?;
    Ok(Hall {
        load: load.shape(),
        things,
        wide: walls.u16(0),
        high: walls.u16(2),
        start: Tail { bytes, at: start }.place(),
        goal: Tail { bytes, at: goal }.place(),
    })
}

fn places_at(heap: Global, bytes: &[u8], n: u16) -> Result<Vec<Place>, AllocError>
    ensures { IfOk result (λ v. map place_of v.items ≡ places_at n bytes.now 2) }
{
    (0..u32::from(n))
        .map(|k| {
            let at = 2 + 24 * k;
            Tail { bytes, at }.place()
        })
        .collect(heap)
}

// Reads a way, or says what is wrong with its bytes.
pub fn read_way(heap: Global, bytes: &[u8]) -> Result<Route, Refusal>
    ensures { WayRead bytes.now result }
{
    check_way(bytes)?;
    let places = places_at(heap, bytes, Tail { bytes, at: 0 }.u16(0))?;
    Ok(Route { places })
}
