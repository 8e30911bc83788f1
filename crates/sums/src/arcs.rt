// Arcs of the heads of a pass, by their numbers. Rests on specs/Walk.antt.
ghost use Rattle.std.specs.Prelude.{◌≡◌, ◌<◌, length};
ghost use Rattle.intersections.specs.Members.{circle_at};
ghost use Rattle.boundary.specs.Outline.{gap, between};
ghost use Rattle.gaps.specs.Marks.{phi_at};
ghost use Rattle.sums.specs.Walk.{arc_at, head_of, Placed};

use crate::pass::Pass;
use boundary::angles::gap;
use boundary::arcs::{BoundaryArc, between, full_circle};
use boundary::sort::Mark;
use gaps::numbers::ArcNumber;
use gaps::places::next;
use geometry::circle::Circle;

// An arc of a head of `needed`. (`place`, here and in `lookup` and `shares`, is its number; `Place` is that of a head's
// entries in a gradient.)
#[derive(Clone, Copy)]
pub(crate) struct ArcOf<'a> {
    pub(crate) pass: Pass<'a>,
    pub(crate) place: usize,
    ghost placed: { Placed pass.needed pass.heads.now.items place },
}

// The gap from one mark of a head to another.
fn gap_arc(j: usize, circle: Circle, marks: &[Mark], from: usize, to: usize) -> BoundaryArc
    requires { (from < length marks.now) × (to < length marks.now) }
    ensures { result ≡ between j circle (phi_at marks.now from) (gap (phi_at marks.now from) (phi_at marks.now to)) }
{
    let start = marks[from].phi;
    between(j, circle, start, gap(start, marks[to].phi))
}

impl<'a> ArcOf<'a> {
    // Its head.
    #[tactic(auto, using(crate::proofs::Held::heads_named, crate::proofs::Held::placed_below))]
    pub(crate) fn head(&self) -> usize
        ensures value { result ≡ head_of self.now.place }
        ensures below { result < length self.now.pass.circles.now }
    {
        match ArcNumber::of(self.place) {
            ArcNumber::Next { head, .. }
            | ArcNumber::Whole { head }
            | ArcNumber::Far { head, .. } => head,
        }
    }

    // The circle of its head.
    pub(crate) fn circle(&self) -> Circle
        ensures { result ≡ circle_at self.now.pass.circles.now (head_of self.now.place) }
    {
        self.pass.circles[self.head()]
    }

    // The arc itself.
    pub(crate) fn arc(&self) -> BoundaryArc
        ensures { result ≡ arc_at self.now.pass.circles.now self.now.pass.heads.now.items self.now.place }
    {
        let j = self.head();
        let circle = self.pass.circles[j];
        let marks = self.pass.head(j).marks.as_slice();
        match ArcNumber::of(self.place) {
            ArcNumber::Next { from, .. } => gap_arc(
                j,
                circle,
                marks,
                from,
                next(from, marks.len()),
            ),
            ArcNumber::Whole { .. } => full_circle(j, circle),
            ArcNumber::Far { from, to, .. } => gap_arc(j, circle, marks, from, to),
        }
    }
}
