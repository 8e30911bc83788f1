// The area of a set inside the box with its gradient: of a list of arcs, and of a set.
// Rests on specs/Gradient.antt.
ghost use Rattle.std.specs.Prelude.{◌≡◌, map, length, false};
ghost use Rattle.intersections.specs.Members.{heads_of, circle_at, members_of};
ghost use Rattle.intersections.specs.Heads.{first_ten, circle_list};
ghost use Rattle.clip.specs.Area.{empty_box};
ghost use Rattle.clip.specs.Gradient.{with_gradient, so_far, add_clipped_arcs_with_gradient};
ghost use Rattle.clip.specs.Gradient.{clipped_with_gradient, clipped_onto};

use crate::area::empty_box;
use crate::slopes::Sum;
use boundary::arcs::BoundaryArc;
use boundary::walk::outline_of;
use geometry::bounds::Bounds;
use geometry::circle::Circle;
use intersections::members::{HeadCircle, circles_of, first_ten, members_of};
use intersections::points::IntersectionPoint;
use outline::place::Place;

impl Sum<'_> {
    // Arcs of the first ten of these circles, added; one of none of them adds nothing.
    fn add_arcs(&mut self, arcs: &[BoundaryArc], bounds: Bounds, circles: &[Circle])
        ensures same_reference { self.new.grad.ghost_name ≡ self.old.grad.ghost_name }
        ensures added { so_far self.new
            ≡ add_clipped_arcs_with_gradient bounds (first_ten circles.now) (so_far self.old) arcs.now }
    {
        for arc in arcs {
            self.add_clipped_arc(*arc, bounds, circles);
        }
    }
}

// The area in the box of a set, and its gradient, added to grad. The arcs of its outline name circles among the first
// ten of a list, after whose entries come the box's; an arc of none of them adds nothing. Not one body with
// clipped_area: each of its steps has another form here, with the gradient lent along. Whether the box is empty is
// asked by its callers, as there.
#[tactic(auto, unfolding(crate::specs::Gradient::clipped_with_gradient))]
fn area_and_gradient(
    arcs: &[BoundaryArc],
    circles: &[Circle],
    bounds: Bounds,
    set: &[HeadCircle],
    grad: &mut [f64],
) -> f64
    requires { empty_box bounds ≡ false }
    ensures { with_gradient result grad.new
        ≡ clipped_with_gradient bounds (first_ten circles.now) (circle_list set.now) arcs.now grad.old }
{
    let mut sum = Sum { total: 0.0, grad };
    sum.add_arcs(arcs, bounds, circles);
    sum.add_edges(bounds, set, Place::after(first_ten(circles).len()));
    0.5 * sum.total
}

// The area in the box of the set `mask`, whose arcs are given, and its gradient, added to grad. Of the circles the
// first ten are read, here and below.
#[tactic(auto, using(crate::proofs::Rows::of_heads), unfolding(crate::specs::Gradient::clipped_with_gradient))]
pub fn area_and_gradient_from_clipped_arcs(
    arcs: &[BoundaryArc],
    circles: &[Circle],
    bounds: Bounds,
    mask: usize,
    grad: &mut [f64],
) -> f64
    ensures { let all = first_ten circles.now in
        with_gradient result grad.new
        ≡ clipped_with_gradient bounds all (map (circle_at all) (heads_of (length all) mask)) arcs.now grad.old }
{
    if empty_box(bounds) {
        return 0.0;
    }
    area_and_gradient(arcs, circles, bounds, &members_of(mask, circles), grad)
}

// The area that the heads of a set water together inside the box, and its gradient, added to grad: by position three
// entries a head of the set, then the box's four.
#[tactic(auto, using(crate::proofs::Rows::of_heads), unfolding(crate::specs::Gradient::clipped_onto, crate::specs::Gradient::clipped_with_gradient))]
pub fn clipped_region_area_and_gradient(
    mask: usize,
    circles: &[Circle],
    points: &[IntersectionPoint],
    bounds: Bounds,
    grad: &mut [f64],
) -> f64
    ensures { with_gradient result grad.new
        ≡ clipped_onto bounds (members_of (first_ten circles.now) points.now mask) grad.old }
{
    if empty_box(bounds) {
        return 0.0;
    }
    let set = members_of(mask, circles);
    let arcs = outline_of(mask, &set, points);
    area_and_gradient(&arcs, &circles_of(&set), bounds, &set, grad)
}
