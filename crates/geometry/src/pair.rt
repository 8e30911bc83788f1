// A pair of heads and where their outlines meet.
ghost use Rattle.std.specs.Prelude.{◌≡◌};
ghost use Rattle.geometry.specs.Circle.{intersection_points};
ghost use Rattle.geometry.specs.Meeting.{points};

use crate::circle::Circle;
use crate::meeting::Meeting;

// The numbers of the two heads in the plan, and their meeting; by value, as the library has no heap.
#[derive(Clone, Copy, PartialEq, Debug)]
pub struct Pair {
    pub first: usize,
    pub second: usize,
    pub meeting: Meeting,
}

impl Pair {
    // The heads `first` and `second`, which are the circles a and b.
    pub fn new(first: usize, second: usize, a: Circle, b: Circle) -> Self
        ensures { (result.first ≡ first) ×
            (result.second ≡ second) ×
            (points result.meeting ≡ intersection_points a b) }
    {
        Pair {
            first,
            second,
            meeting: a.intersection_points(b),
        }
    }
}
