// Examples of what is printed.
use crate::answers::Answer;
use crate::rendering::render;
use exact::points::Place;
use hall::refusals::{Lent, Refusal};
use std::process::Abort;
use std::test::Fail;

fn shows(
    rt: &(impl Abort + AllocGlobal),
    reply: Result<Answer, Refusal>,
    expected: &str,
) -> Result<(), Fail> {
    let text = render(rt.alloc(), reply)?;
    assert_eq!(rt; text.as_str(), expected);
    Ok(())
}

#[test]
fn a_way(rt: HostRuntime) -> Result<(), Fail> {
    let places = [
        Place { x: 8, y: 5, w: 1 },
        Place { x: 4, y: -4, w: 6 },
        Place { x: 0, y: 7, w: 7 },
    ];
    shows(
        &rt,
        Ok(Answer::Way(&places)),
        "way\n8/1 5/1\n2/3 -2/3\n0/1 1/1\n",
    )
}

#[test]
fn the_farthest_numbers(rt: HostRuntime) -> Result<(), Fail> {
    let places = [
        Place {
            x: i64::MIN,
            y: i64::MAX,
            w: 1,
        },
        Place {
            x: i64::MIN,
            y: 0,
            w: 9223372036854775808,
        },
        Place {
            x: -5,
            y: 3,
            w: u64::MAX,
        },
    ];
    shows(
        &rt,
        Ok(Answer::Way(&places)),
        "way\n-9223372036854775808/1 9223372036854775807/1\n-1/1 0/1\n-1/3689348814741910323 1/6148914691236517205\n",
    )
}

#[test]
fn words(rt: HostRuntime) -> Result<(), Fail> {
    shows(&rt, Ok(Answer::None), "none\n")?;
    shows(&rt, Ok(Answer::Accepted), "accepted\n")?;
    shows(&rt, Ok(Answer::Undecided), "undecided\n")
}

#[test]
fn refusals(rt: HostRuntime) -> Result<(), Fail> {
    shows(&rt, Err(Refusal::Bend(9)), "refused 4 at 9\n")?;
    shows(&rt, Err(Refusal::Slice(Lent::Way)), "refused 5 at 2\n")?;
    let collision = Refusal::Collision {
        stretch: 3,
        thing: 2,
    };
    shows(&rt, Err(collision), "refused 7 at 3 2\n")?;
    shows(&rt, Err(Refusal::Memory), "refused 8 at 0\n")
}
