// Ways as they are read and written: places in order, start and end included.
ghost use Rattle.std.specs.Prelude.{◌-◌, ◌^◌, ◌<◌, T, vec_len};
ghost use Rattle.std.specs.List.{list_all};
ghost use Rattle.hall.specs.Outlines.{bounded};

use exact::points::Place;

// The numbers are those that the reader takes.
#[derive(Drop)]
pub struct Route {
    pub(crate) places: Vec<Place>,
    ghost few: { vec_len places < 2 ^ 16 },
    ghost near: { T (list_all (bounded (2 ^ 60 - 1)) places.items) },
}
