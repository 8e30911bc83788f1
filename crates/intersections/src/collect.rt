// The meeting points of all pairs of circles (the Rust's collect_intersections). Rests on specs/Points.antt.
ghost use Rattle.std.specs.Prelude.{◌≡◌, ◌≤◌, ◌<◌, ◌++◌, length, map};
ghost use Rattle.geometry.specs.Meeting.{points};
ghost use Rattle.masks.specs.Mask.{gather};
ghost use Rattle.intersections.specs.Points as spec;
ghost use Rattle.intersections.specs.Points.{collected};
ghost use Rattle.intersections.specs.Heads.{first_ten};

use crate::members::first_ten;
use crate::points::{IntersectionPoint, Intersections};
use geometry::circle::Circle;
use geometry::meeting::Meeting;
use geometry::pair::Pair;
use geometry::point::Point;

// Whether the circle c adopts the point p of the circles a and b, which are not read: this is the one predicate of who
// adopts a point, where a change of it goes (ARCHITECTURE.md).
#[tactic(auto, unfolding(crate::specs::Points::adopts_point))]
fn adopts_point(a: Circle, b: Circle, c: Circle, p: Point) -> bool
    ensures { result ≡ spec.adopts_point a b c p }
{
    c.contains_point(p)
}

// Two heads among those whose circles these are, as the parents of the points in which they meet.
#[derive(Clone, Copy)]
struct Parents<'a> {
    circles: &'a [Circle],
    pair: Pair,
    ghost few: { length circles.now ≤ 10 },
    ghost within: { (pair.first < length circles.now) × (pair.second < length circles.now) },
}

impl Parents<'_> {
    // Whether head l adopts their point p: a parent does without the test.
    #[tactic(auto, unfolding(crate::specs::Points::adopts_by))]
    fn adopts(&self, p: Point, l: usize) -> bool
        requires { l < length self.now.circles.now }
        ensures { result ≡ spec.adopts self.now.circles.now self.now.pair.first self.now.pair.second p l }
    {
        let (circles, first, second) = (self.circles, self.pair.first, self.pair.second);
        l == first || l == second || adopts_point(circles[first], circles[second], circles[l], p)
    }

    // The adopters of their point p, as a mask.
    // A loop and not one function that is handed the test: the closure and its contract would be longer at each place.
    #[tactic(auto, using(crate::proofs::Adopting::gathered))]
    fn adopters(&self, p: Point) -> usize
        ensures { let cs = self.now.circles.now in let pair = self.now.pair in
            result ≡ gather (length cs) (spec.adopts cs pair.first pair.second p) }
    {
        let mut mask = 0usize;
        for l in 0..self.circles.len() {
            if self.adopts(p, l) {
                mask |= 1 << l;
            }
        }
        mask
    }

    // Their point p, with its adopters.
    #[tactic(auto, unfolding(crate::specs::Points::with_adopters_by))]
    fn with_adopters(&self, p: Point) -> IntersectionPoint
        ensures { result ≡ spec.with_adopters self.now.circles.now self.now.pair.first self.now.pair.second p }
    {
        IntersectionPoint {
            point: p,
            first: self.pair.first,
            second: self.pair.second,
            adopters: self.adopters(p),
        }
    }

    // Their points, put at the end of those found.
    fn push_points(&self, found: &mut Intersections)
        requires { length found.old.items ≤ 88 }
        ensures { let pair = self.now.pair in found.new.items ≡ found.old.items
            ++ map (spec.with_adopters self.now.circles.now pair.first pair.second) (points pair.meeting) }
    {
        match self.pair.meeting {
            Meeting::None => {}
            Meeting::One(x, y) => found.push(self.with_adopters(Point::new(x, y))),
            Meeting::Two(x, y, u, v) => {
                found.push(self.with_adopters(Point::new(x, y)));
                found.push(self.with_adopters(Point::new(u, v)));
            }
        }
    }
}

// The meeting points of circles. Of more than ten the first ten are read.
pub fn collect_intersections(circles: &[Circle]) -> Intersections
    ensures { result.items ≡ collected (first_ten circles.now) }
{
    let heads = first_ten(circles);
    let mut found = Intersections::new();
    for (i, first) in heads.iter().enumerate() {
        // By a range: `heads.iter().enumerate().skip(i + 1)` is no shorter.
        for j in i + 1..heads.len() {
            let parents = Parents {
                circles: heads,
                pair: Pair::new(i, j, *first, heads[j]),
            };
            parents.push_points(&mut found);
        }
    }
    found
}
