// A head as a circle of f64. What is here for a reader are the theorems of specs/: on the heads of the domain the float
// decisions about circles are the whole-number ones. Rests on `heads`, `geometry`, and the laws of `binary64` and
// `elementary`.
#![tactic(auto)]

ghost use Rattle.std.specs.Prelude.{◌≡◌};
ghost use Rattle.exact.specs.Circle.{circle_of};

use geometry::circle::Circle;
use geometry::point::Point;
use heads::Head;

// The circle of a head: each of its whole numbers is an f64 as it stands. A function and no `From`, since both types
// are other crates'.
pub fn circle_of(head: Head) -> Circle
    ensures { result ≡ circle_of head }
{
    Circle::new(
        Point::new(f64::from(head.x), f64::from(head.y)),
        f64::from(head.radius),
    )
}
