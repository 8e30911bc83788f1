// The outline of a set as a list of arcs, each with its head's number. Rests on `region_arcs` of
// boundary/specs/Set.antt.
ghost use Rattle.std.specs.Prelude.{◌≡◌, map, take};
ghost use Rattle.boundary.specs.Set.{numbered, arcs_held, region_arcs};
ghost use Rattle.intersections.specs.Heads.{first_ten};

use boundary::arcs::{Arcs, BoundaryArc};
use boundary::walk::outline_of;
use geometry::circle::Circle;
use intersections::members::{HeadCircle, members_of};
use intersections::points::IntersectionPoint;

// The arc of a member as the arc of its head: 0 for an arc of no member, as the definition has it, and the walk makes
// none.
#[tactic(auto, unfolding(boundary::specs::Set::numbered))]
fn numbered(arc: BoundaryArc, set: &[HeadCircle]) -> BoundaryArc
    ensures { result ≡ numbered (map (λ m. m.head) set.now) arc }
{
    let circle = set.get(arc.circle).map_or(0, |member| member.head);
    BoundaryArc { circle, ..arc }
}

// Arcs under head numbers, while there is room. Pushed one by one: `collect` would answer a `Result`, whose error
// cannot come here.
fn numbered_arcs(arcs: &[BoundaryArc], set: &[HeadCircle]) -> Arcs
    ensures { result.items ≡ take arcs_held (map (numbered (map (λ m. m.head) set.now)) arcs.now) }
{
    let mut all = Arcs::new();
    for arc in arcs.iter().take(all.capacity()) {
        all.push(numbered(*arc, set));
    }
    all
}

// The arcs of a set's outline, in order, each with its head's number. Of the circles the first ten are read.
#[tactic(auto, using(crate::proofs::Walking::region_arcs_are, intersections::proofs::Few::few_read))]
pub fn region_boundary_arcs(mask: usize, circles: &[Circle], points: &[IntersectionPoint]) -> Arcs
    ensures { result.items ≡ region_arcs (first_ten circles.now) points.now mask }
{
    let set = members_of(mask, circles);
    let arcs = outline_of(mask, &set, points);
    numbered_arcs(&arcs, &set)
}
