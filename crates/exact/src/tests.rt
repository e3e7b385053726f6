// Cases with numbers.
use crate::meets::meet;
use crate::orders::{height_order, same_place, x_order};
use crate::points::{Corner, Place, Side};
use crate::sides::turn;
use crate::wide::product_order;
use std::cmp::Ordering;

// 2 ^ 96
const TOP: i128 = 79228162514264337593543950336;

fn side(a: i8, b: i8, c: i8, d: i8) -> Side {
    Side {
        from: Corner {
            x: a as i64,
            y: b as i64,
        },
        to: Corner {
            x: c as i64,
            y: d as i64,
        },
    }
}

// Whether the sides meet at x / w, y / w.
fn meet_at(s: Side, t: Side, x: i64, y: i64, w: u64) -> bool {
    match meet(s, t) {
        Some(p) => same_place(p, Place { x, y, w }),
        None => false,
    }
}

#[test]
fn sides_cross(rt: HostRuntime) {
    assert!(rt; meet_at(side(0, 0, 3, 3), side(0, 2, 2, 0), 1, 1, 1));
    assert!(rt; meet_at(side(0, 0, 1, 2), side(0, 1, 1, 0), 1, 2, 3));
    assert!(rt; meet_at(side(0, 0, 1, 2), side(1, 0, 0, 1), 2, 4, 6));
}

#[test]
fn ends_touch(rt: HostRuntime) {
    assert!(rt; meet_at(side(0, 0, 2, 0), side(2, 0, 2, 5), 2, 0, 1));
    assert!(rt; meet_at(side(-4, 0, 4, 0), side(1, 0, 2, 7), 1, 0, 1));
}

#[test]
fn sides_miss(rt: HostRuntime) {
    assert!(rt; meet(side(0, 0, 1, 0), side(5, -1, 5, 1)).is_none());
    assert!(rt;
        meet(side(0, 0, 4, 4), side(0, 1, 4, 5)).is_none(),
        "parallel"
    );
    assert!(rt;
        meet(side(0, 0, 4, 4), side(1, 1, 2, 2)).is_none(),
        "on one line"
    );
}

#[test]
fn orders(rt: HostRuntime) {
    let third = Place { x: 1, y: 7, w: 3 };
    let half = Place { x: 1, y: 0, w: 2 };
    assert_eq!(rt; x_order(third, half), Ordering::Less);
    assert_eq!(rt; x_order(half, Place { x: 2, y: 9, w: 4 }), Ordering::Equal);
    let up = side(0, 0, 4, 4);
    let down = side(4, 0, 0, 4);
    assert!(rt; turn(up.from, up.to, down.to) > 0);
    assert!(rt; turn(up.from, up.to, down.from) < 0);
}

#[test]
fn heights(rt: HostRuntime) {
    let up = Side {
        from: Corner { x: 0, y: 0 },
        to: Corner { x: 4, y: 4 },
    };
    let down = Side {
        from: Corner { x: 4, y: 0 },
        to: Corner { x: 0, y: 4 },
    };
    assert_eq!(rt;
        height_order(up, down, Place { x: 3, y: 0, w: 2 }),
        Ordering::Less
    );
    assert_eq!(rt;
        height_order(up, down, Place { x: 2, y: 0, w: 1 }),
        Ordering::Equal
    );
    assert_eq!(rt;
        height_order(up, down, Place { x: 5, y: 0, w: 2 }),
        Ordering::Greater
    );
}

#[test]
fn products(rt: HostRuntime) {
    assert_eq!(rt;
        product_order(TOP - 1, TOP - 1, TOP, TOP - 2),
        Ordering::Greater
    );
    assert_eq!(rt; product_order(-TOP, TOP - 1, 1 - TOP, TOP), Ordering::Equal);
    assert_eq!(rt; product_order(-TOP, TOP, 1 - TOP, TOP), Ordering::Less);
}
