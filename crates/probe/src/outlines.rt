// Exports of crates `boundary` and `outline`: wrapped angles; meeting points, arcs, open areas and gradients of a set
// of the first n_sets circles. Each works the meeting points out anew. One for each function compared, with C's numbers
// (lib.rt): a list is handed out by its length and the item at a place.
ghost use Rattle.std.specs.Prelude.{◌≡◌, length};
ghost use Rattle.outline.specs.Area.{area_of, open_area, add_gradient};
ghost use Rattle.boundary.specs.Outline.{wrap_angle};
ghost use Rattle.probe.specs.Handed as spec;

use crate::given::{Arc, Circles, Met, arc_at, circles_of, point_at};
use boundary::angles::wrap_angle;
use boundary::arcs::Arcs;
use intersections::collect::collect_intersections;
use intersections::points::Intersections;
use outline::area::{area_from_boundary_arcs, region_area};
use outline::gradient::accumulate_region_overlap_gradient;
use outline::outline::region_boundary_arcs;

// An angle wrapped into one turn.
#[unsafe(no_mangle)]
pub extern "C" fn probe_wrap_angle(x: f64) -> f64
    ensures { result ≡ wrap_angle x }
{
    wrap_angle(x)
}

// The meeting points of the circles.
// This and the next are over what C hands over, as the definitions of specs/Handed.antt that the contracts here name.
pub(crate) fn points_of(circles: Circles, n_sets: usize) -> Intersections
    ensures { result.items ≡ spec.points circles.numbers n_sets }
{
    collect_intersections(&circles_of(circles, n_sets))
}

// The arcs of the outline of a set of them.
pub(crate) fn arcs_of(circles: Circles, n_sets: usize, mask: usize) -> Arcs
    ensures { result.items ≡ spec.arcs circles.numbers n_sets mask }
{
    region_boundary_arcs(
        mask,
        &circles_of(circles, n_sets),
        &points_of(circles, n_sets),
    )
}

// How many meeting points.
#[unsafe(no_mangle)]
pub extern "C" fn probe_number_of_points(circles: Circles, n_sets: usize) -> usize
    ensures { result ≡ length (spec.points circles.numbers n_sets) }
{
    points_of(circles, n_sets).len()
}

// The k-th of them.
#[unsafe(no_mangle)]
pub extern "C" fn probe_point(circles: Circles, n_sets: usize, k: usize) -> Met
    ensures { result ≡ spec.met_at (spec.points circles.numbers n_sets) k }
{
    point_at(&points_of(circles, n_sets), k)
}

// How many arcs.
#[unsafe(no_mangle)]
pub extern "C" fn probe_number_of_arcs(circles: Circles, n_sets: usize, mask: usize) -> usize
    ensures { result ≡ length (spec.arcs circles.numbers n_sets mask) }
{
    arcs_of(circles, n_sets, mask).len()
}

// The k-th of them.
#[unsafe(no_mangle)]
pub extern "C" fn probe_arc(circles: Circles, n_sets: usize, mask: usize, k: usize) -> Arc
    ensures { result ≡ spec.arc_at (spec.arcs circles.numbers n_sets mask) k }
{
    arc_at(&arcs_of(circles, n_sets, mask), k)
}

// The area that the arcs enclose.
#[unsafe(no_mangle)]
pub extern "C" fn probe_area_from_boundary_arcs(circles: Circles, n_sets: usize, mask: usize) -> f64
    ensures { result ≡ area_of (spec.circles circles.numbers n_sets) (spec.arcs circles.numbers n_sets mask) }
{
    area_from_boundary_arcs(
        &arcs_of(circles, n_sets, mask),
        &circles_of(circles, n_sets),
    )
}

// The same straight from the members of the set.
#[unsafe(no_mangle)]
pub extern "C" fn probe_region_area(circles: Circles, n_sets: usize, mask: usize) -> f64
    ensures { result ≡ open_area (spec.members circles.numbers n_sets mask) }
{
    region_area(
        mask,
        &circles_of(circles, n_sets),
        &points_of(circles, n_sets),
    )
}

// The gradient of that area by head numbers, added to grad.
#[unsafe(no_mangle)]
pub extern "C" fn probe_overlap_gradient(
    circles: Circles,
    n_sets: usize,
    mask: usize,
    grad: &mut [f64],
)
    ensures { grad.new
        ≡ add_gradient (spec.circles circles.numbers n_sets) grad.old (spec.arcs circles.numbers n_sets mask) }
{
    accumulate_region_overlap_gradient(
        &arcs_of(circles, n_sets, mask),
        &circles_of(circles, n_sets),
        grad,
    );
}
