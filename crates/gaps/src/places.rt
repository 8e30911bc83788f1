// The next place round a head, and the circle of a head by its numbers. Rests on specs/Gaps.antt.
ghost use Rattle.std.specs.Prelude.{◌≡◌, min};
ghost use Rattle.gaps.specs.Gaps.{circle_in, next_of};

use geometry::circle::Circle;
use geometry::point::Point;

// Of n places round a circle the one after a: the first after the last, and after one past that. Not `(a + 1) % n`:
// this is total, for no places and for the greatest a too.
#[tactic(auto, unfolding(crate::specs::Gaps::next_of))]
pub fn next(a: usize, n: usize) -> usize
    ensures { result ≡ next_of a n }
{
    if a < n && a + 1 < n { a + 1 } else { 0 }
}

// The circle of head l, from the three numbers of each of ten heads; of a head past the last that of the last. An array
// of numbers, as C hands circles over (`probe`).
#[tactic(auto, unfolding(crate::specs::Gaps::circle_in))]
pub fn circle_at(c: &[f64; 30], l: usize) -> Circle
    ensures { result ≡ circle_in c.now (min l 9) }
{
    let at = l.min(9) * 3;
    Circle::new(Point::new(c[at], c[at + 1]), c[at + 2])
}
