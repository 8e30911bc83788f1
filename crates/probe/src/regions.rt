// Exports of crates `diagram` and `exclusive_gradients`: the exclusive areas of the first n_sets circles, in a box by
// its centre and sides or without one, with gradients or without. One for each function compared, with the parameters
// that C hands over (lib.rt).
ghost use Rattle.std.specs.Prelude.{◌≡◌, ◌<◌, MatchOption, length};
ghost use Rattle.diagram.specs.Diagram as left;
ghost use Rattle.exclusive_gradients.specs.Gradient.{gradient_answer, exclusive_areas, exclusive_gradients};
ghost use Rattle.geometry.specs.Point.{at};
ghost use Rattle.geometry.specs.Rectangle.{around};
ghost use Rattle.probe.specs.Handed as spec;

use crate::container;
use crate::given::{Circles, circles_of};
use diagram::exclusives::{compute_exclusive_regions, compute_exclusive_regions_clipped};
use diagram::gradients::{
    compute_exclusive_regions_clipped_with_gradient,
    compute_exclusive_regions_with_gradient_circles,
};
use exclusive::areas::{RowsError, rows_number};
use exclusive_gradients::gradients::to_exclusive_areas_and_gradients;
use geometry::circle;

// The first n_sets circles: there are ten, and of more the calls are refused.
// An Option, and the refusal at each call: an export gives a number, so that `?` has no Result to leave.
fn first_circles(circles: Circles, n_sets: usize) -> Option<circle::Circles>
    ensures { MatchOption result (10 < n_sets)
        (λ first. (first.items ≡ spec.circles circles.numbers n_sets) × (length first.items ≡ n_sets)) }
{
    (n_sets <= 10).then(|| circles_of(circles, n_sets))
}

// Exclusive areas and their gradients from presence bytes, areas and gradients, in place.
#[unsafe(no_mangle)]
pub extern "C" fn probe_to_exclusive_areas_and_gradients(
    present: &[u8],
    areas: &mut [f64],
    gradients: &mut [f64],
    n: usize,
    width: usize,
) -> u8
    ensures value { result ≡ gradient_answer n width present.now areas.old gradients.old }
    ensures areas_after { areas.new ≡ exclusive_areas n width present.now areas.old gradients.old }
    ensures gradients_after { gradients.new ≡ exclusive_gradients n width present.now areas.old gradients.old }
{
    rows_number(to_exclusive_areas_and_gradients(present, areas, gradients, n, width))
}

// The exclusive areas of the circles.
#[unsafe(no_mangle)]
pub extern "C" fn probe_compute_exclusive_regions(
    circles: Circles,
    n_sets: usize,
    presence: &mut [u8],
    exclusives: &mut [f64],
) -> u8
    ensures value { result
        ≡ left.answer n_sets (left.open_diagram (spec.circles circles.numbers n_sets)) presence.old exclusives.old }
    ensures presence_after { presence.new
        ≡ left.presence_left n_sets (left.open_diagram (spec.circles circles.numbers n_sets))
        presence.old exclusives.old }
    ensures exclusives_after { exclusives.new
        ≡ left.exclusives_left n_sets (left.open_diagram (spec.circles circles.numbers n_sets))
        presence.old exclusives.old }
{
    let Some(first) = first_circles(circles, n_sets) else {
        return rows_number(Err(RowsError::TooManyHeads));
    };
    rows_number(compute_exclusive_regions(&first, presence, exclusives))
}

// Those in the box.
#[unsafe(no_mangle)]
pub extern "C" fn probe_compute_exclusive_regions_clipped(
    circles: Circles,
    n_sets: usize,
    x: f64,
    y: f64,
    width: f64,
    height: f64,
    presence: &mut [u8],
    exclusives: &mut [f64],
) -> u8
    ensures value { result
        ≡ left.answer n_sets (left.clipped_diagram (around (at x y) width height)
        (spec.circles circles.numbers n_sets)) presence.old exclusives.old }
    ensures presence_after { presence.new
        ≡ left.presence_left n_sets (left.clipped_diagram (around (at x y) width height)
        (spec.circles circles.numbers n_sets)) presence.old exclusives.old }
    ensures exclusives_after { exclusives.new
        ≡ left.exclusives_left n_sets (left.clipped_diagram (around (at x y) width height)
        (spec.circles circles.numbers n_sets)) presence.old exclusives.old }
{
    let Some(first) = first_circles(circles, n_sets) else {
        return rows_number(Err(RowsError::TooManyHeads));
    };
    rows_number(compute_exclusive_regions_clipped(
        &first,
        container(x, y, width, height),
        presence,
        exclusives,
    ))
}

// The exclusive areas with their gradients.
#[unsafe(no_mangle)]
pub extern "C" fn probe_compute_exclusive_regions_with_gradient_circles(
    circles: Circles,
    n_sets: usize,
    presence: &mut [u8],
    exclusives: &mut [f64],
    gradients: &mut [f64],
) -> u8
    ensures value { result
        ≡ left.answer_with n_sets (left.open_with_gradients (spec.circles circles.numbers n_sets))
        presence.old exclusives.old gradients.old }
    ensures presence_after { presence.new
        ≡ left.presence_left_with n_sets (left.open_with_gradients (spec.circles circles.numbers n_sets))
        presence.old exclusives.old gradients.old }
    ensures exclusives_after { exclusives.new
        ≡ left.areas_left n_sets (left.open_with_gradients (spec.circles circles.numbers n_sets))
        presence.old exclusives.old gradients.old }
    ensures gradients_after { gradients.new
        ≡ left.gradients_left n_sets (left.open_with_gradients (spec.circles circles.numbers n_sets))
        presence.old exclusives.old gradients.old }
{
    let Some(first) = first_circles(circles, n_sets) else {
        return rows_number(Err(RowsError::TooManyHeads));
    };
    rows_number(compute_exclusive_regions_with_gradient_circles(
        &first, presence, exclusives, gradients,
    ))
}

// Those in the box.
#[unsafe(no_mangle)]
pub extern "C" fn probe_compute_exclusive_regions_clipped_with_gradient(
    circles: Circles,
    n_sets: usize,
    x: f64,
    y: f64,
    width: f64,
    height: f64,
    presence: &mut [u8],
    exclusives: &mut [f64],
    gradients: &mut [f64],
) -> u8
    ensures value { result
        ≡ left.answer_with n_sets (left.clipped_with_gradients (around (at x y) width height)
        (spec.circles circles.numbers n_sets)) presence.old exclusives.old gradients.old }
    ensures presence_after { presence.new
        ≡ left.presence_left_with n_sets (left.clipped_with_gradients (around (at x y) width height)
        (spec.circles circles.numbers n_sets)) presence.old exclusives.old gradients.old }
    ensures exclusives_after { exclusives.new
        ≡ left.areas_left n_sets (left.clipped_with_gradients (around (at x y) width height)
        (spec.circles circles.numbers n_sets)) presence.old exclusives.old gradients.old }
    ensures gradients_after { gradients.new
        ≡ left.gradients_left n_sets (left.clipped_with_gradients (around (at x y) width height)
        (spec.circles circles.numbers n_sets)) presence.old exclusives.old gradients.old }
{
    let Some(first) = first_circles(circles, n_sets) else {
        return rows_number(Err(RowsError::TooManyHeads));
    };
    rows_number(compute_exclusive_regions_clipped_with_gradient(
        &first,
        container(x, y, width, height),
        presence,
        exclusives,
        gradients,
    ))
}
