// Exclusive areas and their gradients, in place (the Rust's to_exclusive_areas_and_gradients). Rests on
// specs/Gradient.antt.
ghost use Rattle.std.specs.Prelude.{◌≡◌, cond, not, ◌&&◌, min, ◌*◌, ◌/◌, ◌≤◌, ◌^◌, eqb, get_or, length};
ghost use Rattle.std.specs.Float.{nan};
ghost use Rattle.std.specs.Float.Ieee.{lt};
ghost use Rattle.lists.specs.Written.{written};
ghost use Rattle.binary64.specs.Constants.{zero64};
ghost use Rattle.exclusive_gradients.specs.Gradient.{width_check, exclusive_areas, exclusive_gradients, kept_row};

use crate::subtract::subtract_supersets;
use exclusive::areas::{RowsError, rows_answer};
use exclusive::presence::Presence;
use exclusive::steps::to_unclamped_areas;

// Whether tables of so many rows and a gradient table of `count` numbers, `width` a row, are taken. The room for the
// gradients is asked by division, since 2^n times the width may not fit a usize.
pub fn width_answer(n: usize, rows: usize, count: usize, width: usize) -> Result<(), RowsError>
    ensures { result ≡ width_check n width rows count }
{
    rows_answer(n, rows)?;
    if count / (1usize << n) < width {
        return Err(RowsError::TablesTooShort);
    }
    Ok(())
}

// Whether a row keeps its numbers: it is present, and its area is not below zero. A NaN and a -0 are not below zero.
fn keeps(byte: u8, area: f64) -> bool
    ensures { result ≡ (eqb byte 1 && not (lt area zero64)) }
{
    byte == 1 && !(area < 0.0)
}

// Document 01: "The gradient form only replaces values below 0.0 and then zeroes that gradient row."
// Absent rows are +0.
fn replace_rows(present: &Presence, areas: &mut [f64], gradients: &mut [f64], width: usize)
    requires { (2 ^ present.now.n ≤ length areas.old) × (2 ^ present.now.n * width ≤ length gradients.old) }
    ensures areas_after { let P = present.now in areas.new
        ≡ written (λ S. cond (kept_row P.bytes.now areas.old S) (get_or areas.old S nan) zero64) (2 ^ P.n) areas.old }
    ensures gradients_after { let P = present.now in gradients.new
        ≡ written (λ x. cond (kept_row P.bytes.now areas.old (x / width)) (get_or gradients.old x nan) zero64)
        (2 ^ P.n * width) gradients.old }
{
    let bytes = present.bytes;
    // By index, and no `chunks_exact_mut`: that asks for a width above 0, and here 0 is allowed.
    for s in 0..present.row_count() {
        if !keeps(bytes[s], areas[s]) {
            areas[s] = 0.0;
            let at = s * width;
            gradients[at..at + width].fill(0.0);
        }
    }
}

// The exclusive areas of n heads and their gradients, in place of the areas and gradients of the rows, `width` numbers
// a gradient. Refused, for more than ten heads or where a table has fewer than 2^n rows or the gradients fewer than 2^n
// times the width numbers, nothing is written.
// Areas and gradients are two slices, the gradients one row's numbers after another's, as the C interface lends them.
pub fn to_exclusive_areas_and_gradients(
    present: &[u8],
    areas: &mut [f64],
    gradients: &mut [f64],
    n: usize,
    width: usize,
) -> Result<(), RowsError>
    ensures value { result ≡ width_check n width (min (length present.now) (length areas.old)) (length gradients.old) }
    ensures areas_after { areas.new ≡ exclusive_areas n width present.now areas.old gradients.old }
    ensures gradients_after { gradients.new ≡ exclusive_gradients n width present.now areas.old gradients.old }
{
    width_answer(n, present.len().min(areas.len()), gradients.len(), width)?;
    to_unclamped_areas(present, areas, n)?;
    let present = Presence { n, bytes: present };
    subtract_supersets(&present, gradients, width);
    replace_rows(&present, areas, gradients, width);
    Ok(())
}
