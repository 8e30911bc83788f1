// A plan drawn: its heads as circles and its ground as a box, of f64. Rests on the plan of `plan` and the circle of a
// head of `exact`.
#![tactic(auto)]

ghost use Rattle.std.specs.Prelude.{◌≡◌, map};
ghost use Rattle.exact.specs.Circle.{circle_of};
ghost use Rattle.drawn.specs.Drawn.{plan_circles, box_of};

use exact::circle_of;
use geometry::circle::{Circle, Circles};
use geometry::point::Point;
use geometry::rectangle::Rectangle;
use plan::{Ground, Plan};

// These are functions and no `From`: the types on both sides are those of other crates.

// The circles of all ten heads that a plan has room for, those past its count too.
pub fn circles_of(plan: Plan) -> [Circle; 10]
    ensures { result ≡ map circle_of plan.heads }
{
    plan.heads.map(circle_of)
}

// The circles of a plan's heads, by head number. Not inlined: two plans are drawn for an edit.
#[inline(never)]
#[tactic(auto, unfolding(crate::specs::Drawn::plan_circles))]
pub fn plan_circles(plan: Plan) -> Circles
    ensures { result.items ≡ plan_circles plan }
{
    let mut circles = Circles::from(circles_of(plan));
    circles.truncate(plan.n);
    circles
}

// The box of a plan: each of its whole numbers is an f64 as it stands.
#[tactic(auto, unfolding(crate::specs::Drawn::box_of))]
pub fn box_of(ground: Ground) -> Rectangle
    ensures { result ≡ box_of ground }
{
    Rectangle::new(
        Point::new(f64::from(ground.x), f64::from(ground.y)),
        f64::from(ground.width),
        f64::from(ground.height),
    )
}
