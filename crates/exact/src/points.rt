// Corners, places, sides and directions, as values.
ghost use Rattle.std.specs.Prelude.{◌-ℤ◌};
ghost use Rattle.algebra.specs.Near.{Near};
ghost use Rattle.exact.specs.Corners.{CornerNear};

// A corner of a shape, at whole coordinates. Its type keeps no bound: the reader makes eight of a shape, of which only those that
// the shape has were checked.
#[derive(Clone, Copy, Debug, PartialEq, Eq)]
pub struct Corner {
    pub x: i64,
    pub y: i64,
}

// A place at x / w and y / w, with w above 0. How large its numbers may be differs from question to question, so functions say it, and not the type:
// a type for each bound would have to be turned into the next at every call.
#[derive(Clone, Copy, Debug)]
pub struct Place {
    pub x: i64,
    pub y: i64,
    pub w: u64,
}

// The side of a shape from one corner to the next; the shape lies to its left.
#[derive(Clone, Copy, Debug)]
pub struct Side {
    pub from: Corner,
    pub to: Corner,
    pub ghost starts: { CornerNear 2047 from },
    pub ghost ends: { CornerNear 2047 to },
}

// Where a side points, and how far.
#[derive(Clone, Copy, Debug)]
pub struct Direction {
    pub dx: i64,
    pub dy: i64,
    pub ghost along: { Near 4094 dx },
    pub ghost up: { Near 4094 dy },
}

// The values of a line at the two ends of a side. Their difference is a cross product of two directions, so at most 2 · 4094² in size.
#[derive(Clone, Copy, Debug)]
pub struct Ends {
    pub from: i64,
    pub to: i64,
    pub ghost gap: { Near 33521672 (from -ℤ to) },
}
