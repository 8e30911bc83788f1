// The arcs of one member of a set, gap by gap. Rests on `arc_between` and `arcs_at` of specs/Outline.antt.
ghost use Rattle.std.specs.Prelude.{◌≡◌, ◌≤◌, ◌+◌, ◌++◌, [], length};
ghost use Rattle.std.specs.Option.{option_to_list};
ghost use Rattle.boundary.specs.Gaps.{arc_between};
ghost use Rattle.boundary.specs.Outline.{arcs_at};
ghost use Rattle.intersections.specs.Heads.{circle_list};

use crate::angles::{gap, midpoint, probe};
use crate::arcs::{BoundaryArc, Outline, between, full_circle};
use crate::ownership::MemberOf;
use crate::sort::Angles;

impl MemberOf<'_> {
    // With no angle: its whole circle, if the probe is its own.
    #[tactic(auto, using(crate::proofs::Gaps::one_if), unfolding(crate::specs::Outline::arcs_at))]
    fn whole_circle(self) -> Option<BoundaryArc>
        ensures { option_to_list result ≡ arcs_at (circle_list self.entry.set.now) self.entry.k self.entry.circle [] }
    {
        self.owned(probe(self.circle))
            .then(|| full_circle(self.k, self.circle))
    }

    // Its arc in the gap from one of its angles to the next. The outline has none where the gap is collapsed or the
    // midpoint is another member's.
    fn arc_between(self, phi_a: f64, phi_b: f64) -> Option<BoundaryArc>
        ensures { option_to_list result
            ≡ arc_between (circle_list self.entry.set.now) self.entry.k self.entry.circle phi_a phi_b }
    {
        let middle = midpoint(self.circle, phi_a, phi_b)?;
        self.owned(middle)
            .then(|| between(self.k, self.circle, phi_a, gap(phi_a, phi_b)))
    }

    // Its arcs, with these angles, put at the end of those found.
    pub(crate) fn push_arcs(self, angles: &Angles, all: &mut Outline)
        requires { length all.old.items ≤ 288 }
        ensures arcs { all.new.items ≡ all.old.items
            ++ arcs_at (circle_list self.entry.set.now) self.entry.k self.entry.circle angles.now.items }
        ensures few { length all.new.items ≤ length all.old.items + 32 }
    {
        if angles.is_empty() {
            if let Some(arc) = self.whole_circle() {
                all.push(arc);
            }
            return;
        }
        for (i, &phi) in angles.iter().enumerate() {
            // The last gap ends at the first angle, so no `windows`.
            let next = angles[(i + 1) % angles.len()];
            if let Some(arc) = self.arc_between(phi, next) {
                all.push(arc);
            }
        }
    }
}
