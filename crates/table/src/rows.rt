// Which rows an edit works out, and all rows of lent slices written in place. Afresh is the same pass with no
// sets before.
ghost use Rattle.std.specs.Prelude.{◌≡◌, ◌≤◌, ◌^◌, length, replicate};
ghost use Rattle.lists.specs.Written.{written};
ghost use Rattle.masks.specs.Presence.{byte, stands};
ghost use Rattle.regions.specs.Edit.{reworked};
ghost use Rattle.table.specs.Ready.{heads_in};
ghost use Rattle.table.specs.Rows as spec;

use crate::ready::Ready;
use plan::rows_needed;
use sums::presence::{clear_absent, write_presence};
use sums::rows::write_areas;

// The edited head, and those that it met before or after, as masks: by default none.
#[derive(Clone, Copy, Default)]
pub struct Change {
    pub own: usize,
    pub met: usize,
}

impl Change {
    // Whether the row of a set after the edit is worked out; `was` says whether it was a set before.
    #[tactic(auto, unfolding(regions::specs::Edit::reworked))]
    fn reworks(self, was: bool, mask: usize) -> bool
        ensures { result ≡ reworked self.own self.met (λ S. was) mask }
    {
        mask & self.own != 0 || !was || (mask.count_ones() != 1 && mask & self.met != 0)
    }

    // Whether row `mask` is worked out, by whether it was and is a set. Row 0 never is.
    fn works_out(self, was: bool, is: bool, mask: usize) -> bool
        ensures { result ≡ spec.worked_out self (λ S. was) (λ S. is) mask }
    {
        mask != 0 && is && self.reworks(was, mask)
    }
}

// What a pass over a table goes by: the change, and the presence bytes of the sets before and after it.
#[derive(Clone, Copy)]
pub(crate) struct Update<'a> {
    pub(crate) change: Change,
    pub(crate) earlier: &'a [u8; 1024],
    pub(crate) later: &'a [u8; 1024],
}

impl Update<'_> {
    // Which of rows 0 to count - 1 are worked out. Bytes and no bools, as the sets are, which `diagram` hands to the
    // same functions.
    fn rows_worked_out(self, count: usize) -> [u8; 1024]
        requires { count ≤ 1024 }
        ensures { let was = stands self.entry.earlier.now in let is = stands self.entry.later.now in
            result ≡ written (λ S. byte (spec.worked_out self.entry.change was is S)) count (replicate 1024 0) }
    {
        let mut wanted = [0u8; 1024];
        for (mask, byte) in wanted[..count].iter_mut().enumerate() {
            let was = self.earlier[mask] == 1;
            let is = self.later[mask] == 1;
            *byte = u8::from(self.change.works_out(was, is, mask));
        }
        wanted
    }
}

// Rows 0 to 2^n - 1 written: the areas of the rows that are worked out, absent rows made +0, and the
// presence bytes. Every other row keeps its number.
#[tactic(auto, using(crate::proofs::Writing::rows_few))]
pub(crate) fn write_rows(ready: &Ready, update: Update<'_>, presence: &mut [u8], rows: &mut [f64])
    requires { let count = 2 ^ heads_in ready.now in (count ≤ length presence.old) × (count ≤ length rows.old) }
    ensures presence_after { let u = update.entry in
        let row_of = spec.rows_written ready.now u.change u.earlier.now u.later.now presence.old rows.old in
        presence.new ≡ written (λ S. (row_of S).byte) (2 ^ heads_in ready.now) presence.old }
    ensures rows_after { let u = update.entry in
        let row_of = spec.rows_written ready.now u.change u.earlier.now u.later.now presence.old rows.old in
        rows.new ≡ written (λ S. (row_of S).number) (2 ^ heads_in ready.now) rows.old }
{
    let n = ready.circles.len();
    let wanted = update.rows_worked_out(rows_needed(n));
    let has_box = ready.bounds.is_some();
    write_areas(ready.bounds, &ready.circles, &ready.points, &wanted, rows);
    clear_absent(has_box, n, update.later, rows);
    write_presence(has_box, n, update.later, presence);
}
