// Which lines are about a set of a plan's heads, and what we hold against each. A set stands as a mask.
use crate::clipped::{same_from_arcs, same_span, same_straight};
use crate::outlines::{same_arc, same_gradient};
use crate::plans::Plan;
use boundary::arcs::Arcs;
use clip::area::{area_from_clipped_arcs, clipped_region_area};
use geometry::bounds::Bounds;
use intersections::members::members_of;
use outline::area::{area_from_boundary_arcs, region_area};
use outline::outline::region_boundary_arcs;
use stored::line::Line;
use stored::numbers::same;

// A set of a plan's heads, with the arcs of its outline.
#[derive(Drop)]
pub struct Set<'a> {
    pub plan: &'a Plan,
    pub mask: usize,
    pub arcs: Arcs,
}

// Whether both areas have these bits.
fn same_areas(from_arcs: f64, straight: f64, bits: u64) -> bool {
    same(from_arcs, bits) && same(straight, bits)
}

// Whether the answers on a line about the set in the box are ours.
fn agrees_in_box(line: &Line, set: &Set<'_>, bounds: Bounds) -> bool {
    let words = &line.words;
    let Plan {
        circles,
        points,
        ..
    } = set.plan;
    match line.letter() {
        b'S' => same_span(words, bounds, &members_of(set.mask, circles)),
        b'K' => {
            same_areas(
                area_from_clipped_arcs(&set.arcs, circles, bounds, set.mask),
                clipped_region_area(set.mask, circles, points, bounds),
                words[2],
            )
        }
        b'L' => same_from_arcs(words, set, bounds) && same_straight(words, set, bounds),
        _ => false,
    }
}

// Whether the answers on a line about the set are ours.
pub(crate) fn agrees(line: &Line, mask: usize, plan: &Plan) -> bool {
    let words = &line.words;
    let Plan {
        circles,
        points,
        bounds,
    } = plan;
    let arcs = region_boundary_arcs(mask, circles, points);
    let answer = words[2];
    match line.letter() {
        b'N' => arcs.len() == answer as usize,
        b'T' => same_arc(&words[3..], answer as usize, &arcs),
        b'R' => {
            same_areas(
                area_from_boundary_arcs(&arcs, circles),
                region_area(mask, circles, points),
                answer,
            )
        }
        b'G' => same_gradient(&words[2..], &arcs, circles),
        _ => {
            let set = Set { plan, mask, arcs };
            bounds.is_some_and(|bounds| agrees_in_box(line, &set, bounds))
        }
    }
}
