// The row order and the subtraction over any tables. Rests on specs/RowOrder.antt and specs/Entries.antt.
ghost use Rattle.std.specs.Prelude.{◌≡◌, cond, [], min, ◌≤◌, eqb, length, OnOk, OnErr};
ghost use Rattle.masks.specs.Presence.{stands};
ghost use Rattle.exclusive.specs.RowOrder.{row_order};
ghost use Rattle.exclusive.specs.Exclusive.{rows_check, rows_answer};
ghost use Rattle.exclusive.specs.Entries.{Subtracted};

use crate::areas::{RowsError, rows_answer};
use crate::levels::subtract_levels;
use crate::presence::Presence;
use crate::rows::{Rows, row_order};

// The same order of any presence bytes and any number of heads; no rows where there are more than ten heads or fewer
// than 2^n bytes.
// No Result and no caller here: any bytes and any n were accepted, and docs/CLAIMS.md names the contract.
pub fn rows_in_order(present: &[u8], n: usize) -> Rows
    ensures { result.items ≡ cond (eqb (rows_answer n (length present.now)) 0) (row_order (stands present.now) n) [] }
{
    match rows_answer(n, present.len()) {
        Ok(()) => row_order(&Presence { n, bytes: present }),
        Err(_) => Rows::new(),
    }
}

// Each area less the sum of what stands for its row's strict supersets, in place, and not yet clamped. Absent rows
// stay, and so do numbers beyond the 2^n rows. Refused, for more than ten heads or where a table has fewer than 2^n
// rows, nothing is written.
pub fn to_unclamped_areas(present: &[u8], areas: &mut [f64], n: usize) -> Result<(), RowsError>
    ensures value { result ≡ rows_check n (min (length present.now) (length areas.old)) }
    ensures subtracted { OnOk result (Subtracted n (stands present.now) 1 areas.old areas.new) }
    ensures areas_unchanged { OnErr result (areas.new ≡ areas.old) }
{
    rows_answer(n, present.len().min(areas.len()))?;
    let present = Presence { n, bytes: present };
    subtract_levels(&present, areas);
    Ok(())
}
