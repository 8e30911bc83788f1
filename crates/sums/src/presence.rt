// Which rows are there, in lent slices: presence bytes from the sets, and absent rows cleared. Rests on
// specs/Presence.antt.
ghost use Rattle.std.specs.Prelude.{◌≡◌, eqb};
ghost use Rattle.masks.specs.Presence.{byte, stands};
ghost use Rattle.sums.specs.Presence.{among, bytes_written, absent_cleared};

use crate::rows::row_count;

// Whether row `mask` is there: row 0 where there is a box, any other where it is a set. That there is a box is all that
// is asked: the box itself plays no part.
fn is_there(has_box: bool, is_set: bool, mask: usize) -> bool
    ensures { result ≡ among has_box (λ T. is_set) mask }
{
    if mask == 0 { has_box } else { is_set }
}

// The byte of row `mask`, by the byte that it has among the sets: both are bytes, as C lends presence.
pub fn row_byte(has_box: bool, is: u8, mask: usize) -> u8
    ensures { result ≡ byte (among has_box (λ T. eqb is 1) mask) }
{
    u8::from(is_there(has_box, is == 1, mask))
}

// The presence bytes of the rows of n_sets circles.
// Three parameters, here and in the next: a struct would be made at each of two callers for these two calls.
pub fn write_presence(has_box: bool, n_sets: usize, sets: &[u8; 1024], presence: &mut [u8])
    ensures { presence.new ≡ bytes_written n_sets (among has_box (stands sets.now)) presence.old }
{
    let count = row_count(n_sets, presence.len());
    for (mask, byte) in presence[..count].iter_mut().enumerate() {
        *byte = row_byte(has_box, sets[mask], mask);
    }
}

// Absent rows of n_sets circles hold +0; every other keeps its number.
pub fn clear_absent(has_box: bool, n_sets: usize, sets: &[u8; 1024], areas: &mut [f64])
    ensures { areas.new ≡ absent_cleared n_sets (among has_box (stands sets.now)) areas.old }
{
    let count = row_count(n_sets, areas.len());
    for (mask, area) in areas[..count].iter_mut().enumerate() {
        if !is_there(has_box, sets[mask] == 1, mask) {
            *area = 0.0;
        }
    }
}
