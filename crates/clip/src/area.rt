// The area of a set inside the box: of a list of arcs, and of a set. Rests on specs/Area.antt.
ghost use Rattle.std.specs.Prelude.{◌≡◌, map, length, false};
ghost use Rattle.binary64.specs.Constants.{zero64};
ghost use Rattle.intersections.specs.Members.{heads_of, circle_at, members_of};
ghost use Rattle.intersections.specs.Heads.{first_ten, circle_list};
ghost use Rattle.inside.specs.Span.{spans};
ghost use Rattle.clip.specs.Area.{empty_box, add_clipped_arc, add_clipped_arcs, add_span, add_edges};
ghost use Rattle.clip.specs.Area.{clipped_area_of, clipped_area};

use boundary::arcs::BoundaryArc;
use boundary::walk::outline_of;
use geometry::bounds::Bounds;
use geometry::circle::Circle;
use inside::edges::BoxEdge;
use inside::parts::clipped_arc_integral;
use inside::span::{Span, edge_inside_interval};
use intersections::members::{HeadCircle, circles_of, first_ten, members_of};
use intersections::points::IntersectionPoint;

// Whether the box has no inside.
#[tactic(auto, unfolding(crate::specs::Area::empty_box))]
pub fn empty_box(bounds: Bounds) -> bool
    ensures { result ≡ empty_box bounds }
{
    bounds.x_max <= bounds.x_min || bounds.y_max <= bounds.y_min
}

// An arc's integral in the box, added to a sum; one of no circle adds nothing. As in `outline::area` with another step:
// a function that is handed the step would be longer at both.
#[tactic(auto, unfolding(crate::specs::Area::add_clipped_arc))]
fn add_clipped_arc(total: f64, bounds: Bounds, circles: &[Circle], arc: BoundaryArc) -> f64
    ensures { result ≡ add_clipped_arc bounds circles.now total arc }
{
    match circles.get(arc.circle) {
        Some(circle) => total + clipped_arc_integral(arc, *circle, bounds),
        None => total,
    }
}

// A factor times the length of a span, added.
pub fn add_span(factor: f64, total: f64, span: Span) -> f64
    ensures { result ≡ add_span factor total (spans span) }
{
    match span {
        Span::None => total,
        Span::Ends(lo, hi) => total + factor * (hi - lo),
    }
}

// The spans of the four edges, counterclockwise from the bottom, added.
#[tactic(auto, unfolding(crate::specs::Area::add_edges))]
fn add_edges(total: f64, bounds: Bounds, set: &[HeadCircle]) -> f64
    ensures { result ≡ add_edges bounds (circle_list set.now) total }
{
    let mut sum = total;
    for edge in BoxEdge::ALL {
        let span = edge_inside_interval(edge, bounds, set);
        sum = add_span(edge.factor(bounds), sum, span);
    }
    sum
}

// Arcs of circles, added up.
fn arcs_sum(arcs: &[BoundaryArc], bounds: Bounds, circles: &[Circle]) -> f64
    ensures { result ≡ add_clipped_arcs bounds circles.now zero64 arcs.now }
{
    arcs.iter().fold(
        0.0,
        |total, arc| add_clipped_arc(total, bounds, circles, *arc),
    )
}

// The area in the box of a set; the arcs of its outline name circles of a list. Whether the box is empty is asked by
// its callers, first: the members and arcs that are handed over here cost more than that answer.
#[tactic(auto, unfolding(crate::specs::Area::clipped_area_of))]
fn clipped_area(arcs: &[BoundaryArc], circles: &[Circle], bounds: Bounds, set: &[HeadCircle]) -> f64
    requires { empty_box bounds ≡ false }
    ensures { result ≡ clipped_area_of bounds circles.now (circle_list set.now) arcs.now }
{
    0.5 * add_edges(arcs_sum(arcs, bounds, circles), bounds, set)
}

// The area in the box of the set `mask`, whose arcs are given. Of the circles the first ten are read, here and below.
#[tactic(auto, using(crate::proofs::Rows::of_heads), unfolding(crate::specs::Area::clipped_area_of))]
pub fn area_from_clipped_arcs(
    arcs: &[BoundaryArc],
    circles: &[Circle],
    bounds: Bounds,
    mask: usize,
) -> f64
    ensures { let all = first_ten circles.now in
        result ≡ clipped_area_of bounds all (map (circle_at all) (heads_of (length all) mask)) arcs.now }
{
    if empty_box(bounds) {
        return 0.0;
    }
    clipped_area(arcs, first_ten(circles), bounds, &members_of(mask, circles))
}

// The area that the heads of a set water together inside the box.
#[tactic(auto, using(crate::proofs::Rows::of_heads), unfolding(crate::specs::Area::clipped_area, crate::specs::Area::clipped_area_of))]
pub fn clipped_region_area(
    mask: usize,
    circles: &[Circle],
    points: &[IntersectionPoint],
    bounds: Bounds,
) -> f64
    ensures { result ≡ clipped_area bounds (members_of (first_ten circles.now) points.now mask) }
{
    if empty_box(bounds) {
        return 0.0;
    }
    let set = members_of(mask, circles);
    let arcs = outline_of(mask, &set, points);
    clipped_area(&arcs, &circles_of(&set), bounds, &set)
}
