// A point of the plane (the Rust's point.rs). Rests on hypot of `elementary`.
ghost use Rattle.std.specs.Prelude.{◌≡◌};
ghost use Rattle.elementary.specs.Root.{root};
ghost use Rattle.geometry.specs.Point as spec;

use elementary::root::hypot;

#[derive(Clone, Copy, PartialEq, Debug, Default)]
pub struct Point {
    pub x: f64,
    pub y: f64,
}

impl Point {
    // The point (x, y).
    pub fn new(x: f64, y: f64) -> Self
        ensures { result ≡ spec.at x y }
    {
        Self { x, y }
    }

    // hypot of the differences.
    pub fn distance(self, other: Point) -> f64
        ensures { result ≡ spec.distance self other }
    {
        hypot(self.x - other.x, self.y - other.y)
    }

    // The square of the distance, as rounded: its root is the distance.
    #[tactic(auto, unfolding(crate::specs::Point::squared_distance, elementary::specs::Root::hypot))]
    pub fn squared_distance(self, other: Point) -> f64
        ensures value { result ≡ spec.squared_distance self other }
        ensures root_is { root result ≡ spec.distance self other }
    {
        let dx = self.x - other.x;
        let dy = self.y - other.y;
        dx * dx + dy * dy
    }
}
