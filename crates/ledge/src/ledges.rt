// The ledges of a surface, written into a part of the map.
ghost use Rattle.std.specs.Prelude.{◌≡◌, ◌+◌, ◌*◌, ◌<◌, ◌≤◌, length, MatchOption};
ghost use Rattle.exact.specs.Points.{corner_of};
ghost use Rattle.ledge.specs.Ledges.{BeginningAt, RunLedge, PartOf, Ledged, Mapped};
ghost use Rattle.ledge.specs.Lines.{surface_of};
ghost use Rattle.ledge.specs.Surfaces.{Stands};

use crate::lights::cast_all;
use crate::parts::{Ledge, Part, put_part};
use crate::runs::{Run, run_from};
use crate::shadows::Shadow;
use crate::spots::Spot;
use crate::surfaces::{Surface, surface_at};
use exact::points::Side;
use obstacle::sites::Site;

// Where run number c can begin: at the left end, or where a shadow ends.
fn beginning(shadows: &[Option<Shadow>], c: usize) -> Option<Spot>
    requires { c ≤ length shadows.now }
    ensures { BeginningAt shadows.now c result }
{
    if c == 0 {
        return Some(Spot { t: 0, u: 1 });
    }
    shadows[c - 1]?.to
}

// The ends of a run, as places of the surface.
fn ledge_of(surface: Side, run: Run) -> Ledge
    ensures { RunLedge (corner_of surface.from) (corner_of surface.to) run result }
{
    Ledge {
        from: surface.divided(run.from.t, run.from.u),
        to: surface.divided(run.to.t, run.to.u),
    }
}

// Part number c of a surface: the ledge that begins there, if one does. By `let .. else`, since a `Part` is no Option.
fn part_of(shadows: &[Option<Shadow>], surface: Side, c: usize) -> Part
    requires { c ≤ length shadows.now }
    ensures { PartOf shadows.now (corner_of surface.from) (corner_of surface.to) c result }
{
    let Some(spot) = beginning(shadows, c) else {
        return Part::Vacant;
    };
    let Some(run) = run_from(shadows, spot) else {
        return Part::Vacant;
    };
    Part::Free(ledge_of(surface, run))
}

// The ledges of one surface: its part of the map has room for one at the left end, and one at the end of each shadow.
pub fn write_ledges(site: &Site, surface: Surface, parts: &mut [u64])
    requires stands { Stands site.now.obstacles (surface_of surface) }
    requires room { 6 * (length site.now.obstacles + 5) ≤ length parts.old }
    ensures { Ledged site.now.task.hall site.now.obstacles (surface_of surface) parts.new 0 (length site.now.obstacles + 5) }
{
    let line = surface.line(site.hall, site.obstacles);
    let shadows = cast_all(site.hall, site.obstacles, line);
    // By number: `put_part` writes by number, since a map is lent words (docs/DECISIONS.md, "Language forms")
    for c in 0..site.obstacles.len() + 5 {
        put_part(parts, c, part_of(&shadows, line, c));
    }
}

// The map of a hall: the ledges of every surface, each in its own part.
pub fn write_map(site: &Site, words: &mut [u64])
    requires { 6 * ((16 * length site.now.obstacles + 1) * (length site.now.obstacles + 5)) ≤ length words.old }
    ensures { Mapped site.now.task.hall site.now.obstacles words.new (length site.now.obstacles + 5) }
{
    let width = 6 * (site.obstacles.len() + 5);
    // By number: tried by chunks_exact_mut, and while that lends the words out, no invariant can say what they hold
    for number in 0..16 * site.obstacles.len() + 1 {
        if let Some(surface) = surface_at(site.obstacles, number) {
            write_ledges(
                site,
                surface,
                &mut words[number * width..(number + 1) * width],
            );
        }
    }
}
