// What the sets and the area of every row of a plan are worked out from: circles, meeting points and the box,
// made once a plan.
ghost use Rattle.std.specs.Prelude.{◌≡◌, Option};
ghost use Rattle.table.specs.Ready as spec;

use drawn::plan_circles;
use geometry::bounds::Bounds;
use geometry::circle::Circles;
use intersections::collect::collect_intersections;
use intersections::points::Intersections;
use plan::Plan;
use sets::discover::discover_regions;

// Circles and their meeting points; and the box, if the rows are those in it.
// Not `Drawing` of diagram: that lends its circles and points, which are made of the plan here, and has the box, whose
// area goes into row 0, and this its bounds alone.
#[derive(Clone, Copy)]
pub struct Ready {
    pub circles: Circles,
    pub points: Intersections,
    pub bounds: Option<Bounds>,
}

impl Ready {
    // What the rows of a plan are worked out from, in this box or without one.
    pub(crate) fn of(plan: Plan, bounds: Option<Bounds>) -> Self
        ensures { spec.Of plan bounds result }
    {
        let circles = plan_circles(plan);
        let points = collect_intersections(&circles);
        Self {
            circles,
            points,
            bounds,
        }
    }

    // The presence bytes of the plan's sets.
    pub(crate) fn sets(&self) -> [u8; 1024]
        ensures { result ≡ spec.sets_in self.now }
    {
        discover_regions(&self.circles, &self.points)
    }
}
