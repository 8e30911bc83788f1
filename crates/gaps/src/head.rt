// One head of a plan: who lets it have a point of its edge, and a gap between two of its angles.
// Rests on specs/Gaps.antt and specs/Marks.antt.
ghost use Rattle.std.specs.Prelude.{◌≡◌, ◌<◌, ◌≤◌, length};
ghost use Rattle.intersections.specs.Members.{circle_at};
ghost use Rattle.gaps.specs.Gaps.{owned_in, is_arc};
ghost use Rattle.gaps.specs.Marks.{letters, gap_letters};

use boundary::angles::midpoint;
use boundary::ownership::lets;
use geometry::circle::Circle;
use geometry::point::Point;

// Head j of the plan that has these circles: ten at most.
#[derive(Clone, Copy)]
pub(crate) struct HeadOf<'a> {
    pub(crate) circles: &'a [Circle],
    pub(crate) j: usize,
    ghost ten: { length circles.now ≤ 10 },
    ghost known: { j < length circles.now },
}

impl HeadOf<'_> {
    // Its circle.
    pub(crate) fn circle(self) -> Circle
        ensures { result ≡ circle_at self.entry.circles.now self.entry.j }
    {
        self.circles[self.j]
    }

    // The heads that let it have the point p.
    // A loop and not one function that is handed the test: the closure and its contract would be longer at each place.
    #[tactic(auto, using(intersections::proofs::Adopting::gathered), unfolding(crate::specs::Marks::letters))]
    pub(crate) fn letters(self, p: Point) -> usize
        ensures { result ≡ letters self.entry.circles.now self.entry.j p }
    {
        let mut mask: usize = 0;
        for (l, circle) in self.circles.iter().enumerate() {
            if lets(self.j, p, l, *circle) {
                mask |= 1 << l;
            }
        }
        mask
    }

    // The heads that let it have the gap from one angle to another: nobody, where it is collapsed. A `match` here and
    // below: with `map_or` and `is_some_and`, by cases of the midpoint too, the goals that the closure's answer is
    // that of `letters` and that of `owned_in` stayed open.
    #[tactic(auto, unfolding(crate::specs::Marks::gap_letters, boundary::specs::Outline::gap_midpoint))]
    pub(crate) fn gap_letters(self, phi_a: f64, phi_b: f64) -> usize
        ensures { result ≡ gap_letters self.entry.circles.now self.entry.j phi_a phi_b }
    {
        match midpoint(self.circle(), phi_a, phi_b) {
            Some(p) => self.letters(p),
            None => 0,
        }
    }

    // Whether every head of the set lets it have the point p.
    fn owned_in(self, mask: usize, p: Point) -> bool
        ensures { result ≡ owned_in self.entry.circles.now mask self.entry.j p }
    {
        self.circles.iter().enumerate().all(|(l, circle)| mask >> l & 1 != 1
            || lets(self.j, p, l, *circle))
    }

    // Whether its gap from one angle to another is an arc of the set: worked out.
    #[tactic(auto, unfolding(crate::specs::Gaps::is_arc, boundary::specs::Outline::gap_midpoint))]
    pub(crate) fn is_arc(self, mask: usize, phi_a: f64, phi_b: f64) -> bool
        ensures { result ≡ is_arc self.entry.circles.now mask self.entry.j phi_a phi_b }
    {
        match midpoint(self.circle(), phi_a, phi_b) {
            Some(p) => self.owned_in(mask, p),
            None => false,
        }
    }
}
