// What the rows of a pass share: the circles and their meeting points, and what is held of the heads of the wanted
// rows.
ghost use Rattle.std.specs.Prelude.{◌≡◌, ◌^◌, ◌<◌, ◌≤◌, length, get_or};
ghost use Rattle.gaps.specs.Marks.{Few, heads_marked, unmarked};

use gaps::marks::{HeadMarks, PlanMarks};
use geometry::circle::Circle;
use intersections::points::IntersectionPoint;

// No head has more points than there are places, and `heads` is what is worked out of those of `needed`.
#[derive(Clone, Copy)]
pub(crate) struct Pass<'a> {
    pub(crate) circles: &'a [Circle],
    pub(crate) points: &'a [IntersectionPoint],
    pub(crate) heads: &'a PlanMarks,
    pub(crate) needed: usize,
    ghost ten: { length circles.now ≤ 10 },
    ghost few: { Few circles.now points.now },
    ghost below: { needed < 2 ^ length circles.now },
    ghost held: { heads.now.items ≡ heads_marked circles.now points.now needed },
}

impl<'a> Pass<'a> {
    // What is held of head j.
    #[tactic(auto, using(crate::proofs::Held::held_many, crate::proofs::Held::head_read))]
    pub(crate) fn head(&self, j: usize) -> &HeadMarks
        requires { j < length self.now.circles.now }
        ensures { result.now ≡ get_or self.now.heads.now.items j unmarked }
    {
        &self.heads[j]
    }
}
