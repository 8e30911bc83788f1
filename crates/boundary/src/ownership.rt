// Which member of a set has a point of its edge: where edges coincide, the one at the lowest position.
// Rests on `lets` and `owned` of specs/Outline.antt.
ghost use Rattle.std.specs.Prelude.{◌≡◌, true};
ghost use Rattle.binary64.specs.Constants.{one64};
ghost use Rattle.binary64.specs.Floats.{◌+ᶠ◌, ◌*ᶠ◌, ◌/ᶠ◌, ◌<ᶠ◌};
ghost use Rattle.boundary.specs.Outline.{implicit_value, tolerance, lets, owned};
ghost use Rattle.boundary.specs.Measured.{Measured, FarIn};
ghost use Rattle.intersections.specs.Heads.{circle_list};

use binary64::{abs, larger};
use geometry::circle::{Circle, JUST_ABOVE_ONE, moderate};
use geometry::point::Point;
use intersections::members::HeadCircle;

// 2^20: what is shown of the tests below holds of smaller radii.
const RADIUS_LIMIT: f64 = 1048576.0;

// 1 - 2^-10: where the implicit form is below it, the point is seen to be well within, as it is seen to be beyond where
// the form is above JUST_ABOVE_ONE.
const JUST_BELOW_ONE: f64 = 0.9990234375;

// The implicit form of a circle at a point: below 1 inside, 1 on the edge, above 1 outside.
#[tactic(auto, unfolding(crate::specs::Outline::implicit_value))]
fn circle_implicit_value(p: Point, c: Circle) -> f64
    ensures { result ≡ implicit_value p c }
{
    p.squared_distance(c.center) / (c.radius * c.radius)
}

// How far from 1 the implicit form counts as 1.
#[tactic(auto, unfolding(crate::specs::Outline::tolerance))]
fn tolerance(c: Circle) -> f64
    ensures { result ≡ tolerance c }
{
    larger(
        2.0 * Circle::BOUNDARY_COINCIDENCE_GEOM_TOL / c.radius,
        Circle::IMPLICIT_VALUE_FP_TOL,
    )
}

// Whether a radius and a squared distance are such numbers that their products are finite and the tolerance is small.
fn measured(r: f64, squared: f64) -> bool
    ensures { result ≡ true → Measured r squared }
{
    (1.0..RADIUS_LIMIT).contains(&r) && moderate(squared)
}

// Whether the point at this squared distance is seen to be beyond the circle: then neither the implicit form nor the
// tolerance, a division each, is worked out.
fn far_out(squared: f64, c: Circle) -> bool
    ensures { result ≡ true → (one64 +ᶠ tolerance c <ᶠ squared /ᶠ (c.radius *ᶠ c.radius)) ≡ true }
{
    let r = c.radius;
    measured(r, squared) && r * r * JUST_ABOVE_ONE < squared
}

// Whether it is seen to be well within the circle.
fn far_in(squared: f64, c: Circle) -> bool
    ensures { result ≡ true → FarIn squared c }
{
    let r = c.radius;
    measured(r, squared) && squared < r * r * JUST_BELOW_ONE
}

// The member at l, whose circle is c, lets the one at k have the point p.
#[tactic(auto, unfolding(crate::specs::Outline::lets, crate::specs::Outline::implicit_value))]
pub fn lets(k: usize, p: Point, l: usize, c: Circle) -> bool
    ensures { result ≡ lets k p l c }
{
    if l == k {
        return true;
    }
    let squared = p.squared_distance(c.center);
    if far_out(squared, c) {
        return false;
    }
    if far_in(squared, c) {
        return true;
    }
    let eps = tolerance(c);
    let v = circle_implicit_value(p, c);
    if v > 1.0 + eps {
        return false;
    }
    if abs(v - 1.0) <= eps {
        return k <= l;
    }
    true
}

// The member of a set at k, and its circle.
#[derive(Clone, Copy)]
pub(crate) struct MemberOf<'a> {
    pub(crate) set: &'a [HeadCircle],
    pub(crate) k: usize,
    pub(crate) circle: Circle,
}

impl MemberOf<'_> {
    // The point p of its edge is its own: every member of the set lets it have p.
    pub(crate) fn owned(self, p: Point) -> bool
        ensures { result ≡ owned self.entry.k p (circle_list self.entry.set.now) }
    {
        self.set
            .iter()
            .enumerate()
            .all(|(l, member)| lets(self.k, p, l, member.circle))
    }
}
