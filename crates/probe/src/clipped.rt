// Exports of crates `inside` and `clip`: spans of edges, areas and gradients in the box of a set of the first n_sets
// circles. Each works the meeting points out anew. One for each function compared, with C's numbers (lib.rt).
ghost use Rattle.std.specs.Prelude.{◌≡◌};
ghost use Rattle.clip.specs.Area.{clipped_area_of, clipped_area};
ghost use Rattle.clip.specs.Arc.{named_arc_integral_with_gradient};
ghost use Rattle.clip.specs.Gradient.{with_gradient, clipped_with_gradient, clipped_onto};
ghost use Rattle.inside.specs.Span.{horizontal_span, vertical_span};
ghost use Rattle.probe.specs.Handed as spec;

use crate::Extents;
use crate::given::{Arc, Circles, Ends, circles_of};
use crate::outlines::{arcs_of, points_of};
use boundary::arcs::BoundaryArc;
use clip::area::{area_from_clipped_arcs, clipped_region_area};
use clip::gradient::{area_and_gradient_from_clipped_arcs, clipped_region_area_and_gradient};
use clip::slopes::clipped_arc_integral_with_gradient;
use geometry::bounds::Bounds;
use inside::span::{horizontal_edge_inside_interval, vertical_edge_inside_interval};
use intersections::members::members_of;

// The span of the edge at y from x_min to x_max.
#[unsafe(no_mangle)]
#[tactic(auto, using(intersections::specs::Heads::circles_with_heads, intersections::proofs::Few::few_read))]
pub extern "C" fn probe_horizontal_span(
    circles: Circles,
    n_sets: usize,
    mask: usize,
    y: f64,
    x_min: f64,
    x_max: f64,
) -> Ends
    ensures { result ≡ spec.ends_of (horizontal_span y x_min x_max (spec.own circles.numbers n_sets mask)) }
{
    let set = members_of(mask, &circles_of(circles, n_sets));
    Ends::from(horizontal_edge_inside_interval(y, x_min, x_max, &set))
}

// The span of the edge at x from y_min to y_max.
#[unsafe(no_mangle)]
#[tactic(auto, using(intersections::specs::Heads::circles_with_heads, intersections::proofs::Few::few_read))]
pub extern "C" fn probe_vertical_span(
    circles: Circles,
    n_sets: usize,
    mask: usize,
    x: f64,
    y_min: f64,
    y_max: f64,
) -> Ends
    ensures { result ≡ spec.ends_of (vertical_span x y_min y_max (spec.own circles.numbers n_sets mask)) }
{
    let set = members_of(mask, &circles_of(circles, n_sets));
    Ends::from(vertical_edge_inside_interval(x, y_min, y_max, &set))
}

// The integral along the parts in the box of an arc, and its gradient by head numbers, added to grad.
#[unsafe(no_mangle)]
pub extern "C" fn probe_clipped_arc_integral_with_gradient(
    circles: Circles,
    n_sets: usize,
    arc: Arc,
    sides: Extents,
    grad: &mut [f64],
) -> f64
    ensures { with_gradient result grad.new
        ≡ named_arc_integral_with_gradient (spec.bounds_of sides) (spec.circles circles.numbers n_sets)
        (spec.boundary_arc arc) grad.old }
{
    clipped_arc_integral_with_gradient(
        BoundaryArc::from(arc),
        &circles_of(circles, n_sets),
        Bounds::from(sides),
        grad,
    )
}

// The area in the box, from the arcs.
#[unsafe(no_mangle)]
pub extern "C" fn probe_area_from_clipped_arcs(
    circles: Circles,
    n_sets: usize,
    mask: usize,
    sides: Extents,
) -> f64
    ensures { result
        ≡ clipped_area_of (spec.bounds_of sides) (spec.circles circles.numbers n_sets)
        (spec.own circles.numbers n_sets mask) (spec.arcs circles.numbers n_sets mask) }
{
    let arcs = arcs_of(circles, n_sets, mask);
    area_from_clipped_arcs(
        &arcs,
        &circles_of(circles, n_sets),
        Bounds::from(sides),
        mask,
    )
}

// The same straight from the members of the set.
#[unsafe(no_mangle)]
pub extern "C" fn probe_clipped_region_area(
    circles: Circles,
    n_sets: usize,
    mask: usize,
    sides: Extents,
) -> f64
    ensures { result ≡ clipped_area (spec.bounds_of sides) (spec.members circles.numbers n_sets mask) }
{
    let points = points_of(circles, n_sets);
    clipped_region_area(
        mask,
        &circles_of(circles, n_sets),
        &points,
        Bounds::from(sides),
    )
}

// The area in the box, from the arcs, and its gradient by head numbers, added to grad.
#[unsafe(no_mangle)]
pub extern "C" fn probe_area_and_gradient_from_clipped_arcs(
    circles: Circles,
    n_sets: usize,
    mask: usize,
    sides: Extents,
    grad: &mut [f64],
) -> f64
    ensures { with_gradient result grad.new
        ≡ clipped_with_gradient (spec.bounds_of sides) (spec.circles circles.numbers n_sets)
        (spec.own circles.numbers n_sets mask) (spec.arcs circles.numbers n_sets mask) grad.old }
{
    let arcs = arcs_of(circles, n_sets, mask);
    area_and_gradient_from_clipped_arcs(
        &arcs,
        &circles_of(circles, n_sets),
        Bounds::from(sides),
        mask,
        grad,
    )
}

// The same straight from the members of the set, the gradient by their positions.
#[unsafe(no_mangle)]
pub extern "C" fn probe_clipped_region_area_and_gradient(
    circles: Circles,
    n_sets: usize,
    mask: usize,
    sides: Extents,
    grad: &mut [f64],
) -> f64
    ensures { with_gradient result grad.new
        ≡ clipped_onto (spec.bounds_of sides) (spec.members circles.numbers n_sets mask) grad.old }
{
    let points = points_of(circles, n_sets);
    clipped_region_area_and_gradient(
        mask,
        &circles_of(circles, n_sets),
        &points,
        Bounds::from(sides),
        grad,
    )
}
