// Lines on what a set of a plan's heads waters in the box. A set stands as a mask. The Rust's
// answers are
//   S  for the circles of a set (place 1) the span of an edge (2; 0 bottom, 1 right, 2 top, 3 left):
//      how many there are (3), 0 or 1, and its low and high end (4, 5), +0 where there is none
//   K  of a set (1) the area in the box (2)
//   L  of a set (1) that area, summed together with its gradient (2), and the gradient onto zeros, by
//      head numbers and then the box's four entries (from 3 on)
// The areas and the gradient we work out from the arcs and straight from the members.
use crate::numbers::{float, same_all};
use crate::plans::Plan;
use crate::sets::Set;
use clip::gradient::{area_and_gradient_from_clipped_arcs, clipped_region_area_and_gradient};
use geometry::bounds::Bounds;
use inside::edges::BoxEdge;
use inside::span::{Span, edge_inside_interval};
use intersections::members::HeadCircle;
use stored::numbers::same;

// Whether the span of an edge is ours.
pub(crate) fn same_span(words: &[u64; 40], bounds: Bounds, set: &[HeadCircle]) -> bool {
    BoxEdge::ALL.get(words[2] as usize).is_some_and(|edge| {
        let ours = match edge_inside_interval(*edge, bounds, set) {
            Span::None => [0.0; 3],
            Span::Ends(low, high) => [float(1), low, high],
        };
        same_all(&ours, &words[3..])
    })
}

// A gradient that is by position in a set, by head numbers of a plan of n: heads that are not in the
// set have +0, and the others' entries and the box's follow one another.
fn by_heads(from: [f64; 34], mask: usize, n: usize) -> [f64; 34] {
    let mut to = [0.0; 34];
    let mut entries = from.iter();
    for (i, place) in to.iter_mut().enumerate() {
        if n <= i / 3 || mask >> (i / 3) & 1 == 1 {
            *place = entries.next().copied().unwrap_or(0.0);
        }
    }
    to
}

// Whether a line has the area in the box and its gradient.
fn same_area_and_gradient(words: &[u64; 40], area: f64, grad: &[f64; 34]) -> bool {
    same(area, words[2]) && same_all(grad, &words[3..])
}

// By the arcs of the set.
pub(crate) fn same_from_arcs(words: &[u64; 40], set: &Set<'_>, bounds: Bounds) -> bool {
    let circles = &set.plan.circles;
    let mut grad = [0.0; 34];
    let area = area_and_gradient_from_clipped_arcs(&set.arcs, circles, bounds, set.mask, &mut grad);
    same_area_and_gradient(words, area, &grad)
}

// Straight from the members.
pub(crate) fn same_straight(words: &[u64; 40], set: &Set<'_>, bounds: Bounds) -> bool {
    let Plan {
        circles,
        points,
        ..
    } = set.plan;
    let mut grad = [0.0; 34];
    let area = clipped_region_area_and_gradient(set.mask, circles, points, bounds, &mut grad);
    same_area_and_gradient(words, area, &by_heads(grad, set.mask, circles.len()))
}
