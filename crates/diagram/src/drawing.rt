// What the rows of a diagram are worked out from: circles, their meeting points, and the box where there is one. Rests
// on specs/Drawing.antt.
ghost use Rattle.std.specs.Prelude.{◌≡◌};
ghost use Rattle.intersections.specs.Heads.{first_ten};
ghost use Rattle.intersections.specs.Points.{collected};
ghost use Rattle.sets.specs.Regions.{set_bytes};
ghost use Rattle.diagram.specs.Drawing as spec;

use geometry::bounds::Bounds;
use geometry::circle::Circle;
use geometry::rectangle::Rectangle;
use intersections::members::first_ten;
use intersections::points::IntersectionPoint;
use sets::discover::discover_regions;

// Circles with their meeting points, and the box that they are clipped to where there is one. Slices, and no lists: more
// than ten circles can be handed over, and are refused, and a struct that lends the ones and held the others could not
// be copied by those who have it (docs/DECISIONS.md). In a drawing made by `of` the points are those of the first ten
// circles; the fields are public, and in another they may be any.
#[derive(Clone, Copy)]
pub struct Drawing<'a> {
    pub circles: &'a [Circle],
    pub points: &'a [IntersectionPoint],
    pub container: Option<Rectangle>,
}

impl<'a> Drawing<'a> {
    // The circles drawn, with their points.
    pub(crate) fn of(
        circles: &'a [Circle],
        points: &'a [IntersectionPoint],
        container: Option<Rectangle>,
    ) -> Drawing<'a>
        requires { points.now ≡ collected (first_ten circles.now) }
        ensures { spec.Of circles.now container result }
    {
        Drawing {
            circles,
            points,
            container,
        }
    }

    // Which masks are among its sets.
    pub(crate) fn sets(&self) -> [u8; 1024]
        ensures { result ≡ set_bytes (spec.circles_of self.now) (spec.points_of self.now) }
    {
        discover_regions(self.circles, self.points)
    }

    // Where the edges of the box lie.
    pub(crate) fn bounds(&self) -> Option<Bounds>
        ensures { result ≡ spec.bounds_of self.now }
    {
        self.container.map(Rectangle::bounds)
    }

    // The area of the box.
    pub(crate) fn box_area(&self) -> f64
        ensures { result ≡ spec.box_area_of self.now }
    {
        self.container.map_or(0.0, Rectangle::area)
    }

    // How many numbers a gradient has: three a head, and the box's four. Not by `plan::check`: this crate knows no
    // plan.
    pub fn width(&self) -> usize
        ensures { result ≡ spec.width_of self.now }
    {
        let of_heads = first_ten(self.circles).len() * 3;
        match self.container {
            Some(_) => of_heads + 4,
            None => of_heads,
        }
    }
}
