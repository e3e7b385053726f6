// The floor of a place: the highest surface that holds it up.
ghost use Rattle.std.specs.Prelude.{◌≡◌, ◌^◌, map, Decides};
ghost use Rattle.algebra.specs.Hall.{Within};
ghost use Rattle.exact.specs.Points.{place_of};
ghost use Rattle.exact.specs.Sides.{PlaceNear};
ghost use Rattle.hall.specs.Shapes.{shape_of};
ghost use Rattle.ledge.specs.Heights.{foot};
ghost use Rattle.ledge.specs.Landings.{Floors, Higher};
ghost use Rattle.ledge.specs.Lines.{surface_of};
ghost use Rattle.ledge.specs.Surfaces.{Stands, Holds, above};

use crate::surfaces::{Surface, roof_of, surface_at};
use crate::uprights::Upright;
use exact::points::Place;
use hall::shapes::Shape;
use obstacle::sites::Site;

// A place, whose floor on a site is asked.
#[derive(Clone, Copy)]
struct Plumb<'a, 'b> {
    site: &'a Site<'b>,
    upright: Upright,
    ghost within: { Within site.now.task.hall (place_of upright.p) },
}

impl<'a, 'b> Plumb<'a, 'b> {
    // Whether a surface holds the place up.
    fn is_held_by(&self, surface: Surface) -> bool
        requires { Stands self.now.site.now.obstacles (surface_of surface) }
        ensures { Decides result (Holds self.now.site.now.task.hall self.now.site.now.obstacles (surface_of surface) (place_of self.now.upright.p)) }
    {
        match surface {
            Surface::Bottom => true,
            Surface::Top { obstacle, side } => {
                let site = self.site;
                let obstacles = site.obstacles;
                self.upright
                    .is_held_by(&obstacles[obstacle], roof_of(obstacles, obstacle, side))
            }
        }
    }

    // The higher of two surfaces, of which the second may not hold the place up.
    fn higher(&self, best: Surface, surface: Surface) -> Surface
        requires best { Holds self.now.site.now.task.hall self.now.site.now.obstacles (surface_of best) (place_of self.now.upright.p) }
        requires stands { Stands self.now.site.now.obstacles (surface_of surface) }
        ensures { Higher self.now.site.now.task.hall self.now.site.now.obstacles (place_of self.now.upright.p) (surface_of best) (surface_of surface) (surface_of result) }
    {
        let site = self.site;
        let obstacles = site.obstacles;
        if self.is_held_by(surface)
            && self
                .upright
                .is_under(best.slope(obstacles), surface.slope(obstacles))
        {
            surface
        } else {
            best
        }
    }
}

// The highest surface that holds a place up.
pub fn floor_of(site: &Site, p: Place) -> Surface
    requires near { PlaceNear (2 ^ 20) (2 ^ 20) p }
    requires within { Within site.now.task.hall (place_of p) }
    ensures { Floors site.now.task.hall site.now.obstacles (place_of p) (surface_of result) }
{
    let plumb = Plumb {
        site,
        upright: Upright { p },
    };
    (0..16 * site.obstacles.len() + 1)
        .filter_map(|number| surface_at(site.obstacles, number))
        .fold(Surface::Bottom, |best, surface| plumb.higher(best, surface))
}

// The place of a surface under or over p; any shapes will do, so it asks no site.
pub fn landing_on(obstacles: &[Shape<16>], surface: Surface, p: Place) -> Place
    requires stands { Stands (map shape_of obstacles.now) (surface_of surface) }
    requires near { PlaceNear (2 ^ 20) (2 ^ 20) p }
    ensures value { place_of result ≡ foot (above (map shape_of obstacles.now) (surface_of surface)) (place_of p) }
    ensures bound { PlaceNear (2 ^ 45) (2 ^ 33) result }
{
    Upright { p }.foot_on(surface.slope(obstacles))
}
