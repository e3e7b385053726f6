// Falls from the two ends of each obstacle's upper chain.
ghost use Rattle.std.specs.Prelude.{◌≡◌, ◌<◌, ◌≤◌, length, Decides, MatchOption};
ghost use Rattle.hall.specs.Shapes.{shape_of};
ghost use Rattle.hall.specs.Sides.{pair_of};
ghost use Rattle.exact.specs.Points.{corner_of};
ghost use Rattle.exact.specs.Sides.{CornerNear};
ghost use Rattle.ledge.specs.Descents.{TipSide, NoTipSide, TipPair, DescentIs, AllDescents, pair_end};

use crate::floors::floor_of;
use crate::surfaces::Surface;
use crate::uprights::Upright;
use exact::points::{Corner, Place, Side};
use hall::shapes::Shape;
use obstacle::sites::Site;

#[derive(Clone, Copy)]
pub enum Hand {
    Left,
    Right,
}

// From the tip, which is an end of a surface, the load falls to the floor.
#[derive(Clone, Copy)]
pub struct Descent {
    pub surface: Surface,
    pub tip: Corner,
    pub floor: Surface,
}

// The end of an upper side on one hand. An arm for each hand: they share nothing that a closure could leave in place.
fn end_of(side: Side, hand: Hand) -> Corner
    ensures value { corner_of result ≡ pair_end (pair_of side) hand }
    ensures bound { CornerNear 2047 result }
{
    match hand {
        Hand::Left => side.to,
        Hand::Right => side.from,
    }
}

// The upper side that ends farthest out on one hand.
fn tip_side(shape: &Shape<16>, hand: Hand) -> Option<usize>
    ensures { MatchOption result (NoTipSide (shape_of shape.now) hand) (λ i. TipSide (shape_of shape.now) hand i) }
{
    shape
        .sides()
        .position(|side| is_tip_side(shape, side, hand))
}

// Whether a side is an upper one that ends farthest out on that hand. (`is_upper` asks the same of a side's number: one function for both would be the
// comparison alone.)
fn is_tip_side(shape: &Shape<16>, side: Side, hand: Hand) -> bool
    ensures { Decides result (TipPair (shape_of shape.now) hand (pair_of side)) }
{
    let end = Upright {
        p: Place::from(end_of(side, hand)),
    };
    side.to.x < side.from.x && end.is_outermost(shape, hand)
}

// The fall from the end of an obstacle's upper chain, if the load can stand there. That a site has at most 40 obstacles is said here, where the site's
// promise of it is at hand.
fn descent_of(site: &Site, obstacle: usize, hand: Hand) -> Option<Descent>
    ensures value { DescentIs site.now.task.hall site.now.obstacles obstacle hand result }
    ensures few { length site.now.obstacles ≤ 40 }
{
    let shape = site.obstacles.get(obstacle)?;
    let side = tip_side(shape, hand)?;
    let tip = end_of(shape.side(side), hand);
    let there = Place::from(tip);
    if !site.is_free(there) {
        return None;
    }
    Some(Descent {
        surface: Surface::Top { obstacle, side },
        tip,
        floor: floor_of(site, there),
    })
}

// All falls: those of obstacle k stand at 2 k, from its left, and at 2 k + 1, from its right. There is no heap here, so the list is as long as the longest.
pub fn descents(site: &Site) -> [Option<Descent>; 80]
    ensures { AllDescents site.now.task.hall site.now.obstacles result }
{
    // By number, over the obstacles that there are: `from_fn` would ask for all of the list.
    let mut all = [None; 80];
    for k in 0..site.obstacles.len() {
        all[2 * k] = descent_of(site, k, Hand::Left);
        all[2 * k + 1] = descent_of(site, k, Hand::Right);
    }
    all
}
