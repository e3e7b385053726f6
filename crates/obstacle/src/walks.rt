// Walks round shapes; their methods stand in growing.rt, whose definitions speak of these types.
ghost use Rattle.std.specs.Prelude.{◌<◌, ◌≤◌, T, length};
ghost use Rattle.hall.specs.Shapes.{shape_of, drawn_within};

use hall::shapes::Shape;

// A walk round a shape: the corner reached, and how many sides it has gone.
#[derive(Clone, Copy)]
pub(crate) struct Walk<'a, const N: usize> {
    pub(crate) shape: &'a Shape<N>,
    pub(crate) at: usize,
    pub(crate) gone: usize,
    ghost here: { at < length (shape_of shape.now) },
    ghost round: { gone ≤ length (shape_of shape.now) },
    // a call that takes a reference to the shape asks that N is small enough for an array
    ghost few: { N < 256 },
    ghost near: { T (drawn_within 1000 shape.now) },
}

// A walk round the thing, and one round the load.
#[derive(Drop)]
pub(crate) struct Walks<'a, const M: usize, const N: usize> {
    pub(crate) thing: Walk<'a, N>,
    pub(crate) load: Walk<'a, M>,
}
