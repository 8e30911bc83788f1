// A circle, and what holds between two of them (the Rust's circle.rs, first part). Rests on root of
// `elementary`.
ghost use Rattle.std.specs.Prelude.{◌≡◌, true, ◌&&◌};
ghost use Rattle.binary64.specs.Constants.{zero64};
ghost use Rattle.binary64.specs.Floats.{◌<ᶠ◌, ◌≤ᶠ◌};
ghost use Rattle.elementary.specs.Root.{root};
ghost use Rattle.geometry.specs.Moderate.{two_to_the64, Above};
ghost use Rattle.geometry.specs.Circle as spec;
ghost use Rattle.geometry.specs.Meeting.{points};

use crate::meeting::Meeting;
use crate::point::Point;
use binary64::{abs, smaller};
use bounded_list::BoundedList;
use elementary::arctangent::acos;
use elementary::root::root;

// 2^64.
pub const TWO_TO_THE_64: f64 = 18446744073709551616.0;

// 1 + 2^-10.
pub const JUST_ABOVE_ONE: f64 = 1.0009765625;

#[derive(Clone, Copy, PartialEq, Debug, Default)]
pub struct Circle {
    pub center: Point,
    pub radius: f64,
}

// At most ten circles: of a plan's heads by head number, or of the heads of a set in order.
pub type Circles = BoundedList<Circle, 10>;

impl Circle {
    // An arc of a smaller turn, or of a full turn but for less, is none.
    pub const ARC_EPS: f64 = 1e-9;

    // Outlines at such a distance from each other coincide.
    pub const BOUNDARY_COINCIDENCE_GEOM_TOL: f64 = 1e-7;

    // How far from 1 the implicit form of a circle may be on its edge is never less than this.
    pub const IMPLICIT_VALUE_FP_TOL: f64 = 1e-12;

    // Where an outline meets the box: an angle so near to the end of an arc is the end.
    pub const CLIP_ANGLE_TOL: f64 = 1e-12;

    // A point so near to the box is in it.
    pub const CLIP_BOX_TOL: f64 = 1e-9;

    // The Rust's, of its third test of a pair in `discover_regions`, which is left out here (docs/DIFFERENCES.md):
    // nothing reads it.
    pub const EPSILON: f64 = 1e-10;

    // The f64 PI.
    pub const PI: f64 = std::f64::consts::PI;

    // No radius is refused: the checks of a plan refuse more than the Rust's maker does.
    pub fn new(center: Point, radius: f64) -> Self
        ensures { result ≡ spec.around center radius }
    {
        Self { center, radius }
    }

    // PI times the square of the radius.
    pub fn area(self) -> f64
        ensures { result ≡ spec.area self }
    {
        Circle::PI * self.radius * self.radius
    }

    // Whether the circle is closed: the radius is not above 0, or no number, of which `<=` would say otherwise.
    pub fn is_closed(self) -> bool
        ensures { result ≡ spec.is_closed self }
    {
        !(self.radius > 0.0)
    }

    fn either_closed(self, other: Circle) -> bool
        ensures { result ≡ spec.either_closed self other }
    {
        self.is_closed() || other.is_closed()
    }

    // Whether the other circle lies within this one, touching included. A closed one is contained in none and contains
    // none.
    pub fn contains(self, other: Circle) -> bool
        ensures { result ≡ spec.contains self other }
    {
        // Whether one is closed is asked last, here and of a point: most are told apart before.
        self.covers(other) && !self.either_closed(other)
    }

    // The same of the radii as they are.
    fn covers(self, other: Circle) -> bool
        ensures { result ≡ spec.covers self other }
    {
        let squared = self.center.squared_distance(other.center);
        // a sum with a radius that is not below zero is no less, as rounded too
        if moderate(other.radius) && root_above(squared, self.radius) {
            return false;
        }
        root(squared) + other.radius <= self.radius
    }

    // Whether the point lies within this circle or on its outline. A closed one has no point, not even its centre.
    pub fn contains_point(self, point: Point) -> bool
        ensures { result ≡ spec.contains_point self point }
    {
        root_at_most(self.center.squared_distance(point), self.radius) && !self.is_closed()
    }

    // Whether the outlines cross; circles that touch do not, as in the Rust.
    pub fn intersects(self, other: Circle) -> bool
        ensures { result ≡ spec.intersects self other }
    {
        let center_distance = self.center.distance(other.center);
        center_distance < self.radius + other.radius
            && center_distance > abs(self.radius - other.radius)
    }

    // Circles that touch from outside have none in common; of two within each other it is the
    // smaller one's area.
    pub fn intersection_area(self, other: Circle) -> f64
        ensures { result ≡ spec.intersection_area self other }
    {
        let r1 = self.radius;
        let r2 = other.radius;
        let d = self.center.distance(other.center);
        if d >= r1 + r2 {
            return 0.0;
        }
        if d <= abs(r1 - r2) {
            let smaller_radius = smaller(r1, r2);
            return Circle::PI * smaller_radius * smaller_radius;
        }
        lens(r1, r2, d)
    }

    // Where the outlines cross, for centres at the distance d: the foot of the chord lies at the
    // distance a on the way to the other centre, each point h away from the foot.
    fn crossing(self, other: Circle, d: f64) -> Meeting
        ensures { points result ≡ spec.crossing self other d }
    {
        let dx = other.center.x - self.center.x;
        let dy = other.center.y - self.center.y;
        let a = (self.radius * self.radius - other.radius * other.radius + d * d) / (2.0 * d);
        let foot_x = self.center.x + a * dx / d;
        let foot_y = self.center.y + a * dy / d;
        let h = root(self.radius * self.radius - a * a);
        let rx = -dy * (h / d);
        let ry = dx * (h / d);
        Meeting::of(
            Point::new(foot_x + rx, foot_y + ry),
            Point::new(foot_x - rx, foot_y - ry),
        )
    }

    // Whether the outlines, with centres at the distance d, do not meet: the circles are too far
    // apart, or one lies within the other.
    fn apart(self, other: Circle, d: f64) -> bool
        ensures { result ≡ spec.apart self other d }
    {
        d > self.radius + other.radius || d < abs(self.radius - other.radius)
    }

    // Where the outlines meet. A closed circle meets none, and identical ones meet nowhere (docs/DIFFERENCES.md).
    pub fn intersection_points(self, other: Circle) -> Meeting
        ensures { points result ≡ spec.intersection_points self other }
    {
        if self.either_closed(other) {
            return Meeting::None;
        }
        self.outline_points(other)
    }

    // The same of the radii as they are.
    fn outline_points(self, other: Circle) -> Meeting
        ensures { points result ≡ spec.outline_points self other }
    {
        if self == other {
            return Meeting::None;
        }
        let squared = self.center.squared_distance(other.center);
        if root_above(squared, self.radius + other.radius) {
            return Meeting::None;
        }
        let d = root(squared);
        if self.apart(other, d) {
            return Meeting::None;
        }
        self.crossing(other, d)
    }
}

// Whether a number is not below zero and below 2^64, so that its square is finite.
#[tactic(auto, using(binary64::proofs::Ranges::ranges))]
pub fn moderate(x: f64) -> bool
    ensures { result ≡ ((zero64 ≤ᶠ x) && (x <ᶠ two_to_the64)) }
{
    (0.0..TWO_TO_THE_64).contains(&x)
}

// Whether the root of s is seen to be above t without being worked out: s is above the square, as rounded, of a number
// above t.
fn root_above(s: f64, t: f64) -> bool
    ensures { result ≡ true → Above t (root s) }
{
    let more = t * JUST_ABOVE_ONE;
    moderate(s) && moderate(t) && t < more && more * more < s
}

// Whether the root of s is at most t. The root takes most of the time of a distance, and is seldom needed: below the
// square of t, as rounded, s has a root of at most t.
fn root_at_most(s: f64, t: f64) -> bool
    ensures { result ≡ (root s ≤ᶠ t) }
{
    if moderate(s) && moderate(t) && s < t * t {
        return true;
    }
    !root_above(s, t) && root(s) <= t
}

// The area between two arcs: a sector of each circle, less the kite between the centres and the
// points. Both sectors written out, as the Rust has them and the definition.
fn lens(r1: f64, r2: f64, d: f64) -> f64
    ensures { result ≡ spec.lens r1 r2 d }
{
    let part1 = r1 * r1 * acos((d * d + r1 * r1 - r2 * r2) / (2.0 * d * r1));
    let part2 = r2 * r2 * acos((d * d + r2 * r2 - r1 * r1) / (2.0 * d * r2));
    let part3 = 0.5 * root((r1 + r2 - d) * (d + r1 - r2) * (d - r1 + r2) * (d + r1 + r2));
    part1 + part2 - part3
}
