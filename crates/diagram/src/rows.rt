// The rows of a diagram in lent slices, before anything is subtracted: presence bytes, areas, and gradients by head.
// The sets come as presence bytes, beside the drawing and not in it: any list of sets is allowed, and `Drawing::sets`
// is but one. Rests on specs/Rows.antt. (Two functions here ask that there are ten circles at most, which the callers
// have checked: a drawing may hold more. They ask for 2^n places too, of other slices each: a type that lends them with
// either fact would be made and taken apart once for each, and be no plainer.)
ghost use Rattle.std.specs.Prelude.{◌≡◌, ◌*◌, ◌≤◌, ◌^◌, length, get_or};
ghost use Rattle.std.specs.Float.{nan};
ghost use Rattle.lists.specs.Written.{written};
ghost use Rattle.masks.specs.Presence.{stands};
ghost use Rattle.binary64.specs.Constants.{zero64};
ghost use Rattle.exclusive.proofs.TableRows.{by_row};
ghost use Rattle.sums.specs.Gradients.{areas_to};
ghost use Rattle.diagram.specs.Rows.{in_row, slopes_at, presence_written};
ghost use Rattle.diagram.specs.Drawing.{count_of, has_box, rows_of, slopes_by, set_row, box_area_of, box_row_of};

use crate::drawing::Drawing;
use intersections::members::first_ten;
use sums::gradients::write_gradients;
use sums::presence::{clear_absent, write_presence};

// Once the areas of the sets are written: row 0 gets the box's, absent rows are cleared, and the presence bytes follow.
pub(crate) fn finish_rows(
    drawing: &Drawing<'_>,
    sets: &[u8; 1024],
    presence: &mut [u8],
    areas: &mut [f64],
)
    requires few { count_of drawing.now ≤ 10 }
    requires places { let m = 2 ^ count_of drawing.now in (m ≤ length presence.old) × (m ≤ length areas.old) }
    ensures presence_after { presence.new
        ≡ presence_written (count_of drawing.now) (rows_of drawing.now (stands sets.now)) presence.old }
    ensures areas_after { areas.new
        ≡ written (in_row (has_box drawing.now) (stands sets.now) (box_area_of drawing.now)
        (λ S. get_or areas.old S nan) zero64) (2 ^ count_of drawing.now) areas.old }
{
    let n = drawing.circles.len();
    let has_box = drawing.container.is_some();
    areas[0] = drawing.box_area();
    clear_absent(has_box, n, sets, areas);
    write_presence(has_box, n, sets, presence);
}

// The gradient of row 0, written anew: the box's area at the third of its four entries, where the row has that place.
fn write_box_row(drawing: &Drawing<'_>, grad: &mut [f64])
    ensures { grad.new ≡ box_row_of (length grad.old) drawing.now }
{
    grad.fill(0.0);
    if let Some(container) = drawing.container {
        // With `get_mut` the proof did not close: its contract does not say what the slice holds after the write.
        let third = first_ten(drawing.circles).len() * 3 + 2;
        if third < grad.len() {
            grad[third] = container.area();
        }
    }
}

// The areas of the sets, as they come with their gradients, and the gradients of all rows, `width` numbers each. All
// gradients are +0 before those of the sets are written, so that absent rows are left so. `width` as a number: in its
// place the contract would name the drawing's five times.
#[tactic(auto, using(sums::proofs::Laid::rows_in_all, crate::proofs::Laying::all_read))]
pub(crate) fn write_rows_with_gradients(
    drawing: &Drawing<'_>,
    sets: &[u8; 1024],
    width: usize,
    areas: &mut [f64],
    gradients: &mut [f64],
)
    requires few { count_of drawing.now ≤ 10 }
    requires places { let m = 2 ^ count_of drawing.now in
        (m ≤ length areas.old) × (m * width ≤ length gradients.old) }
    ensures areas_after { areas.new
        ≡ areas_to (stands sets.now) (set_row width drawing.now) (2 ^ count_of drawing.now) areas.old }
    ensures gradients_after { gradients.new
        ≡ written (by_row width nan (slopes_at (slopes_by width drawing.now (stands sets.now))))
        (2 ^ count_of drawing.now * width) gradients.old }
{
    let end = (1usize << drawing.circles.len()) * width;
    gradients[..end].fill(0.0);
    write_gradients(
        drawing.bounds(),
        drawing.circles,
        drawing.points,
        sets,
        width,
        areas,
        gradients,
    );
    write_box_row(drawing, &mut gradients[..width]);
}
