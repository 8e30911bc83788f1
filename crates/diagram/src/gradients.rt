// Exclusive areas of circles with their gradients, in lent slices: over any list of sets, and under the Rust's names
// over those that discover_regions finds. A gradient has three numbers a head, and in a box four more. Rests on
// specs/Diagram.antt.
// A body of its own beside `exclusives`: the areas that come with gradients are summed in another order, and made
// exclusive by another rule. Circles and box are apart in the last two, as the Rust has them.
ghost use Rattle.std.specs.Prelude.{◌≡◌, length};
ghost use Rattle.masks.specs.Presence.{stands};
ghost use Rattle.diagram.specs.Drawing.{count_of, slopes_of};
ghost use Rattle.diagram.specs.Diagram.{open_with_gradients, clipped_with_gradients};
ghost use Rattle.diagram.specs.Diagram.{check_with, presence_left_with, areas_left, gradients_left};

use crate::drawing::Drawing;
use crate::rows::{finish_rows, write_rows_with_gradients};
use exclusive::areas::RowsError;
use exclusive_gradients::gradients::{to_exclusive_areas_and_gradients, width_answer};
use geometry::circle::Circle;
use geometry::rectangle::Rectangle;
use intersections::collect::collect_intersections;

// The presence bytes, exclusive areas and gradients of a drawing whose sets are given: rows 0 to 2^n - 1 of all three
// slices, for n heads. Refused, where there are more than ten or a slice has fewer than 2^n rows, nothing is written.
pub fn exclusive_areas_and_gradients_of(
    sets: &[u8; 1024],
    drawing: &Drawing<'_>,
    presence: &mut [u8],
    exclusives: &mut [f64],
    gradients: &mut [f64],
) -> Result<(), RowsError>
    ensures value { result ≡ check_with (count_of drawing.now) (slopes_of drawing.now (stands sets.now))
        presence.old exclusives.old gradients.old }
    ensures presence_after { presence.new
        ≡ presence_left_with (count_of drawing.now) (slopes_of drawing.now (stands sets.now))
        presence.old exclusives.old gradients.old }
    ensures exclusives_after { exclusives.new
        ≡ areas_left (count_of drawing.now) (slopes_of drawing.now (stands sets.now))
        presence.old exclusives.old gradients.old }
    ensures gradients_after { gradients.new
        ≡ gradients_left (count_of drawing.now) (slopes_of drawing.now (stands sets.now))
        presence.old exclusives.old gradients.old }
{
    let n = drawing.circles.len();
    let width = drawing.width();
    let rows = presence.len().min(exclusives.len());
    width_answer(n, rows, gradients.len(), width)?;
    write_rows_with_gradients(drawing, sets, width, exclusives, gradients);
    finish_rows(drawing, sets, presence, exclusives);
    to_exclusive_areas_and_gradients(presence, exclusives, gradients, n, width)
}

// The exclusive areas of circles and their gradients, three numbers a head: more than ten circles are refused too. Row
// 0 is absent.
pub fn compute_exclusive_regions_with_gradient_circles(
    circles: &[Circle],
    presence: &mut [u8],
    exclusives: &mut [f64],
    gradients: &mut [f64],
) -> Result<(), RowsError>
    ensures value { result ≡ check_with (length circles.now) (open_with_gradients circles.now)
        presence.old exclusives.old gradients.old }
    ensures presence_after { presence.new
        ≡ presence_left_with (length circles.now) (open_with_gradients circles.now)
        presence.old exclusives.old gradients.old }
    ensures exclusives_after { exclusives.new
        ≡ areas_left (length circles.now) (open_with_gradients circles.now)
        presence.old exclusives.old gradients.old }
    ensures gradients_after { gradients.new
        ≡ gradients_left (length circles.now) (open_with_gradients circles.now)
        presence.old exclusives.old gradients.old }
{
    let points = collect_intersections(circles);
    let drawing = Drawing::of(circles, &points, None);
    exclusive_areas_and_gradients_of(&drawing.sets(), &drawing, presence, exclusives, gradients)
}

// The same in a box, with the box's four numbers after those of the heads: row 0 is what no circle waters.
pub fn compute_exclusive_regions_clipped_with_gradient(
    circles: &[Circle],
    container: Rectangle,
    presence: &mut [u8],
    exclusives: &mut [f64],
    gradients: &mut [f64],
) -> Result<(), RowsError>
    ensures value { result ≡ check_with (length circles.now) (clipped_with_gradients container circles.now)
        presence.old exclusives.old gradients.old }
    ensures presence_after { presence.new
        ≡ presence_left_with (length circles.now) (clipped_with_gradients container circles.now)
        presence.old exclusives.old gradients.old }
    ensures exclusives_after { exclusives.new
        ≡ areas_left (length circles.now) (clipped_with_gradients container circles.now)
        presence.old exclusives.old gradients.old }
    ensures gradients_after { gradients.new
        ≡ gradients_left (length circles.now) (clipped_with_gradients container circles.now)
        presence.old exclusives.old gradients.old }
{
    let points = collect_intersections(circles);
    let drawing = Drawing::of(circles, &points, Some(container));
    exclusive_areas_and_gradients_of(&drawing.sets(), &drawing, presence, exclusives, gradients)
}
