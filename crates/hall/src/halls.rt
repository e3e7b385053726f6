// A hall with a load to be brought from its start to its goal.
ghost use Rattle.std.specs.Prelude.{◌^◌, ◌≤◌, T};
ghost use Rattle.std.specs.BTreeMap.{keys, values, btree_map_len, IsOrdered};
ghost use Rattle.std.specs.Ordering.{nat_cmp};
ghost use Rattle.std.specs.List.Sorted.{IsStrictlySortedBy-prop};
ghost use Rattle.hall.specs.Outlines.{bounded};
ghost use Rattle.hall.specs.Shapes.{drawn_within, all_within};

use crate::shapes::Shape;
use exact::points::Place;
use std::collections::BTreeMap;

// The numbers are those that the reader takes; things are counted from 0.
#[derive(Drop)]
pub struct Hall {
    pub(crate) load: Shape<8>,
    pub(crate) things: BTreeMap<u8, Shape<8>>,
    pub(crate) wide: u16,
    pub(crate) high: u16,
    pub(crate) start: Place,
    pub(crate) goal: Place,
    ghost walls: { (wide ≤ 1000) × (high ≤ 1000) },
    ghost few: { btree_map_len things ≤ 40 },
    ghost lawful: { IsOrdered nat_cmp things } by { IsStrictlySortedBy-prop nat_cmp (keys things) },
    ghost near: { T (drawn_within 200 load) × T (all_within 1000 (values things)) },
    ghost ends: { T (bounded (2 ^ 20) start) × T (bounded (2 ^ 20) goal) },
}
