// Where two outlines meet: nowhere, in one point or in two. The Rust has a Vec<Point> here, which needs a heap.
// Cases with coordinates, and no ArrayVec of Points: the form that document 01 names (docs/DECISIONS.md).
ghost use Rattle.std.specs.Prelude.{◌≡◌};
ghost use Rattle.geometry.specs.Meeting as spec;

use crate::point::Point;

// The coordinates x, y of each point.
#[derive(Clone, Copy, PartialEq, Debug)]
pub enum Meeting {
    None,
    One(f64, f64),
    Two(f64, f64, f64, f64),
}

impl Meeting {
    // One point where both are equal, as floats are: +0 equals -0, and a NaN equals nothing.
    pub(crate) fn of(p: Point, q: Point) -> Self
        ensures { spec.points result ≡ spec.distinct p q }
    {
        if p == q {
            Meeting::One(p.x, p.y)
        } else {
            Meeting::Two(p.x, p.y, q.x, q.y)
        }
    }
}
