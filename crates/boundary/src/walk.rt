// The walk round a set: the arcs of its outline, member by member, each once. Everything that adds up a set's arcs
// adds up this list. Rests on `outline` of specs/Outline.antt.
ghost use Rattle.std.specs.Prelude.{◌≡◌, ◌≤◌, cond, [], eqb, length};
ghost use Rattle.boundary.specs.Outline.{outline, outline_from};
ghost use Rattle.intersections.specs.Heads.{first_ten, circle_list, members_with};

use crate::arcs::Outline;
use crate::members::angles_for;
use crate::ownership::MemberOf;
use intersections::members::{HeadCircle, first_ten};
use intersections::points::IntersectionPoint;

// The points that the walk looks at: of a single none, so that its outline is its full circle, whatever meets it.
fn looked_at<'a>(set: &[HeadCircle], points: &'a [IntersectionPoint]) -> &'a [IntersectionPoint]
    ensures { result.now ≡ cond (eqb (length set.now) 1) [] points.now }
{
    if set.len() == 1 { &points[..0] } else { points }
}

// The arcs of the members one after another, each with the position of its member.
// Mask and set are two parameters: nothing here needs that they belong together, and a struct would have to say it.
fn walk(mask: usize, set: &[HeadCircle], points: &[IntersectionPoint]) -> Outline
    requires { length set.now ≤ 10 }
    ensures { result.items ≡ outline_from (circle_list set.now) 0 (members_with points.now mask set.now) }
{
    let mut all = Outline::new();
    for (k, member) in set.iter().enumerate() {
        let angles = angles_for(mask, *member, points);
        let member = MemberOf {
            set,
            k,
            circle: member.circle,
        };
        member.push_arcs(&angles, &mut all);
    }
    all
}

// The arcs of a set's outline in order, each with the position of its member; of more than ten heads the first ten are
// read. There is room for all, whatever the points are. Mask and set are two parameters, as in `walk`.
#[tactic(auto, using(crate::proofs::Walking::outline_looked))]
pub fn outline_of(mask: usize, set: &[HeadCircle], points: &[IntersectionPoint]) -> Outline
    ensures { result.items ≡ outline (members_with points.now mask (first_ten set.now)) }
{
    let set = first_ten(set);
    walk(mask, set, looked_at(set, points))
}
