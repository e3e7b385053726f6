// Cases with numbers.
ghost use Rattle.std.specs.Prelude.{◌-◌, ◌^◌, ◌<◌, T};
ghost use Rattle.hall.specs.Outlines.{bounded};

use crate::stretches::Stretch;
use exact::points::Place;
use hall::reader::read_hall;
use std::process::Abort;
use std::test::Fail;

// A hall whose load is the square from (0, 0) to (4, 4).
const SQUARE: [u8; 70] = [
    20, 0, 10, 0, 4, 0, 0, 0, 0, 4, 0, 0, 0, 4, 0, 4, 0, 0, 0, 4, 0, 0, //
    0, 0, 0, 0, 0, 0, 0, 0, 0, 0, 0, 0, 0, 0, 0, 0, 1, 0, 0, 0, 0, 0, 0, 0, //
    0, 0, 0, 0, 0, 0, 0, 0, 0, 0, 0, 0, 0, 0, 0, 0, 1, 0, 0, 0, 0, 0, 0, 0,
];

#[tactic(auto, unfolding(hall::specs::Outlines::bounded))]
fn place(x: i8, y: i8, w: u8) -> Place
    requires { 0 < w }
    ensures { T (bounded (2 ^ 60 - 1) result) }
{
    Place {
        x: x as i64,
        y: y as i64,
        w: w as u64,
    }
}

fn decides(rt: &(impl Abort + AllocGlobal), p: Place, q: Place, clear: bool) -> Result<(), Fail>
    requires { T (bounded (2 ^ 60 - 1) p) × T (bounded (2 ^ 60 - 1) q) }
{
    let Ok(hall) = read_hall(rt.alloc(), &SQUARE) else {
        assert!(rt; false, "no hall");
        return Ok(());
    };
    let square = hall.load();
    let there = Stretch { from: p, to: q };
    let back = Stretch { from: q, to: p };
    assert_eq!(rt; there.is_clear(&square), clear);
    assert_eq!(rt; back.is_clear(&square), clear);
    Ok(())
}

#[test]
fn through_the_middle(rt: HostRuntime) -> Result<(), Fail> {
    decides(&rt, place(-1, 2, 1), place(5, 2, 1), false)?;
    decides(&rt, place(-3, 1, 1), place(15, 4, 2), false)?;
    decides(&rt, place(4, 4, 2), place(4, 4, 2), false)
}

#[test]
fn along_a_side(rt: HostRuntime) -> Result<(), Fail> {
    decides(&rt, place(-1, 4, 1), place(5, 4, 1), true)?;
    decides(&rt, place(0, 1, 1), place(0, 3, 1), true)?;
    decides(&rt, place(0, 0, 1), place(4, 4, 1), false)
}

#[test]
fn over_a_corner(rt: HostRuntime) -> Result<(), Fail> {
    decides(&rt, place(-2, 2, 1), place(2, -2, 1), true)?;
    decides(&rt, place(-2, 3, 1), place(2, -2, 1), false)?;
    decides(&rt, place(-2, 2, 1), place(4, -5, 2), true)
}

#[test]
fn up_to_the_edge(rt: HostRuntime) -> Result<(), Fail> {
    decides(&rt, place(-3, 2, 1), place(0, 2, 1), true)?;
    decides(&rt, place(-3, 2, 1), place(1, 20, 10), false)
}
