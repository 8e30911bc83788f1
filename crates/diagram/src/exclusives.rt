// Exclusive areas of circles in lent slices: over any list of sets, and under the Rust's names over those that
// discover_regions finds. Rests on specs/Diagram.antt. (The two under the Rust's names are two, and take circles and
// box apart, as the Rust has them: what they share is `exclusive_areas_of`, over a drawing with its box or none.)
ghost use Rattle.std.specs.Prelude.{◌≡◌, length};
ghost use Rattle.masks.specs.Presence.{stands};
ghost use Rattle.diagram.specs.Drawing.{count_of, rows_of};
ghost use Rattle.diagram.specs.Diagram.{open_diagram, clipped_diagram, check, presence_left, exclusives_left};

use crate::drawing::Drawing;
use crate::rows::finish_rows;
use exclusive::areas::{RowsError, rows_answer, to_exclusive_areas_in_place};
use geometry::circle::Circle;
use geometry::rectangle::Rectangle;
use intersections::collect::collect_intersections;
use sums::rows::write_areas;

// The presence bytes and exclusive areas of a drawing whose sets are given: rows 0 to 2^n - 1 of both slices, for n
// heads. Refused, where there are more than ten or a slice has fewer than 2^n places, nothing is written.
// Slices one by one, here and in `gradients`: with a struct each contract would say beside what they hold that they
// are the same slices as before.
pub fn exclusive_areas_of(
    sets: &[u8; 1024],
    drawing: &Drawing<'_>,
    presence: &mut [u8],
    exclusives: &mut [f64],
) -> Result<(), RowsError>
    ensures value { result
        ≡ check (count_of drawing.now) (rows_of drawing.now (stands sets.now)) presence.old exclusives.old }
    ensures presence_after { presence.new
        ≡ presence_left (count_of drawing.now) (rows_of drawing.now (stands sets.now)) presence.old exclusives.old }
    ensures exclusives_after { exclusives.new
        ≡ exclusives_left (count_of drawing.now) (rows_of drawing.now (stands sets.now)) presence.old exclusives.old }
{
    let n = drawing.circles.len();
    rows_answer(n, presence.len().min(exclusives.len()))?;
    write_areas(
        drawing.bounds(),
        drawing.circles,
        drawing.points,
        sets,
        exclusives,
    );
    finish_rows(drawing, sets, presence, exclusives);
    to_exclusive_areas_in_place(presence, exclusives, n)
}

// The exclusive areas of circles: more than ten are refused too. Row 0 is absent.
pub fn compute_exclusive_regions(
    circles: &[Circle],
    presence: &mut [u8],
    exclusives: &mut [f64],
) -> Result<(), RowsError>
    ensures value { result
        ≡ check (length circles.now) (open_diagram circles.now) presence.old exclusives.old }
    ensures presence_after { presence.new
        ≡ presence_left (length circles.now) (open_diagram circles.now) presence.old exclusives.old }
    ensures exclusives_after { exclusives.new
        ≡ exclusives_left (length circles.now) (open_diagram circles.now) presence.old exclusives.old }
{
    let points = collect_intersections(circles);
    let drawing = Drawing::of(circles, &points, None);
    exclusive_areas_of(&drawing.sets(), &drawing, presence, exclusives)
}

// The same in a box: row 0 is what no circle waters.
pub fn compute_exclusive_regions_clipped(
    circles: &[Circle],
    container: Rectangle,
    presence: &mut [u8],
    exclusives: &mut [f64],
) -> Result<(), RowsError>
    ensures value { result
        ≡ check (length circles.now) (clipped_diagram container circles.now) presence.old exclusives.old }
    ensures presence_after { presence.new
        ≡ presence_left (length circles.now) (clipped_diagram container circles.now) presence.old exclusives.old }
    ensures exclusives_after { exclusives.new
        ≡ exclusives_left (length circles.now) (clipped_diagram container circles.now) presence.old exclusives.old }
{
    let points = collect_intersections(circles);
    let drawing = Drawing::of(circles, &points, Some(container));
    exclusive_areas_of(&drawing.sets(), &drawing, presence, exclusives)
}
