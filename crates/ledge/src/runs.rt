// Runs of spots that lie in no shadow.
ghost use Rattle.std.specs.Prelude.{◌≡◌, Decides, MatchOption};
ghost use Rattle.ledge.specs.Runs.{Lit, Sooner, Stop, RunFrom};

use crate::shadows::Shadow;
use crate::spots::Spot;

// A run of spots, its ends included; they may be one.
#[derive(Clone, Copy)]
pub struct Run {
    pub from: Spot,
    pub to: Spot,
}

// Whether a spot is in no shadow.
fn is_lit(shadows: &[Option<Shadow>], spot: Spot) -> bool
    ensures { Decides result (Lit shadows.now spot.t spot.u) }
{
    shadows
        .iter()
        .all(|shadow| shadow.is_none_or(|shadow| !shadow.holds(spot)))
}

// The right end of the surface.
fn right_end() -> Spot
    ensures { result.u ≡ 0 }
{
    Spot { t: 1, u: 0 }
}

// Where a shadow begins that ends the run from a spot sooner than the stop that was known, or that stop.
fn sooner(spot: Spot, stop: Spot, from: Spot) -> Spot
    ensures { Sooner spot stop from result }
{
    if !from.order(spot).is_lt() && from.order(stop).is_lt() {
        from
    } else {
        stop
    }
}

// Where the first shadow begins that doesn't begin before a spot, or the right end of the surface.
fn stop_after(shadows: &[Option<Shadow>], spot: Spot) -> Spot
    ensures { Stop shadows.now spot result }
{
    shadows
        .iter()
        .filter_map(|shadow| shadow.and_then(|shadow| shadow.from))
        .fold(right_end(), |stop, from| sooner(spot, stop, from))
}

// The run of a surface that begins at a spot, if that lies in no shadow.
pub fn run_from(shadows: &[Option<Shadow>], spot: Spot) -> Option<Run>
    ensures { MatchOption result (Lit shadows.now spot.t spot.u → ⊥) (RunFrom shadows.now spot) }
{
    if !is_lit(shadows, spot) {
        return None;
    }
    Some(Run {
        from: spot,
        to: stop_after(shadows, spot),
    })
}
