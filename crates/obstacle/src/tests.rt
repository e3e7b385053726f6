// Cases with numbers.
#![tactic(auto, unfolding(hall::specs::Format::sound, hall::specs::Outlines::within, algebra::specs::Hall::edge, algebra::specs::Hall::side))]

ghost use Rattle.std.specs.Prelude.{◌<◌, T, length};
ghost use Rattle.hall.specs.Shapes.{shape_of, drawn_within};

use crate::growing::grow;
use exact::points::Corner;
use hall::shapes::Shape;

// Four functions, and not one over corners: that one would have to require what the check computes of each.

// A load of two by two around its own point.
fn square() -> Shape<4>
    ensures { T (drawn_within 1000 result) }
{
    Shape::new(
        [
            Corner { x: -1, y: -1 },
            Corner { x: 1, y: -1 },
            Corner { x: 1, y: 1 },
            Corner { x: -1, y: 1 },
        ],
        4,
    )
}

// A thing; and a load whose own point lies outside of it.
fn wall() -> Shape<4>
    ensures { T (drawn_within 1000 result) }
{
    Shape::new(
        [
            Corner { x: 6, y: 8 },
            Corner { x: 2, y: 8 },
            Corner { x: 2, y: 3 },
            Corner { x: 6, y: 3 },
        ],
        4,
    )
}

fn wedge() -> Shape<3>
    ensures { T (drawn_within 1000 result) }
{
    Shape::new(
        [
            Corner { x: 0, y: 0 },
            Corner { x: 4, y: 0 },
            Corner { x: 0, y: 4 },
        ],
        3,
    )
}

fn splinter() -> Shape<3>
    ensures { T (drawn_within 1000 result) }
{
    Shape::new(
        [
            Corner { x: 0, y: 0 },
            Corner { x: 2, y: 1 },
            Corner { x: 1, y: 3 },
        ],
        3,
    )
}

// Whether a shape has these corners.
fn has<const N: usize>(s: &Shape<N>, corners: &[Corner]) -> bool {
    s.corners() == corners
}

#[test]
fn sides_alike_are_one(rt: HostRuntime) {
    let grown: Shape<8> = grow(&square(), &wall());
    assert!(rt;
        has(
            &grown,
            &[
                Corner { x: 1, y: 2 },
                Corner { x: 7, y: 2 },
                Corner { x: 7, y: 9 },
                Corner { x: 1, y: 9 },
            ],
        )
    );
}

#[test]
fn own_point_outside(rt: HostRuntime) {
    let grown: Shape<16> = grow(&wall(), &square());
    assert!(rt;
        has(
            &grown,
            &[
                Corner { x: -7, y: -9 },
                Corner { x: -1, y: -9 },
                Corner { x: -1, y: -2 },
                Corner { x: -7, y: -2 },
            ],
        )
    );
}

#[test]
fn no_sides_alike(rt: HostRuntime) {
    let grown: Shape<6> = grow(&splinter(), &wedge());
    assert!(rt;
        has(
            &grown,
            &[
                Corner { x: -1, y: -3 },
                Corner { x: 3, y: -3 },
                Corner { x: 4, y: 0 },
                Corner { x: 0, y: 4 },
                Corner { x: -2, y: 3 },
                Corner { x: -2, y: -1 },
            ],
        )
    );
}
