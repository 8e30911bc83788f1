// The present rows of a table in row order. Rests on specs/RowOrder.antt.
ghost use Rattle.std.specs.Prelude.{◌≡◌, ◌≤◌, ◌^◌, length, get_or, replicate, take};
ghost use Rattle.std.specs.Int.Count.{ones};
ghost use Rattle.lists.specs.Lists.{keep};
ghost use Rattle.lists.specs.Written.{tab, written};
ghost use Rattle.masks.specs.Presence.{stands};
ghost use Rattle.exclusive.specs.RowOrder.{row_order};

use crate::presence::Presence;
use bounded_list::BoundedList;

// Present rows, by their masks.
pub type Rows = BoundedList<usize, 1024>;

// The masks of the present rows, ascending: how many there are, and they stand first in `masks`. Each mask is written,
// and the next takes its place if its row is absent: nothing waits for the test. Tried and slower, of whole calls: a
// list with a push for each present row (by a sixth at 300 rows), a list made of the full array and cut (by two fifths
// at 20 rows).
// `exclusive_gradients` has this loop with another test. One function that is handed the test would be public, and ask
// of its caller that the test may be called, where no public function here has a `requires`; one for a single row
// would test each time that there is a place for it.
fn collect_present(present: &Presence, masks: &mut [usize; 1024]) -> usize
    ensures value { take result masks.new ≡ keep (stands present.now.bytes.now) (tab (λ S. S) (2 ^ present.now.n)) }
    ensures bound { result ≤ 1024 }
{
    let bytes = present.bytes;
    let mut n = 0;
    for s in 0..present.row_count() {
        masks[n] = s;
        n += usize::from(bytes[s] == 1);
    }
    n
}

// How many heads each of these rows has, and 0 past them. Counted once for all turns of `row_order`: tried without, and
// slower, of whole calls by a tenth at 60 to 300 rows.
fn row_heads(rows: &[usize]) -> [u32; 1024]
    requires { length rows.now ≤ 1024 }
    ensures { result ≡ written (λ i. ones (get_or rows.now i 0)) (length rows.now) (replicate 1024 0) }
{
    let mut heads = [0u32; 1024];
    for (i, row) in rows.iter().enumerate() {
        heads[i] = row.count_ones();
    }
    heads
}

// The present rows: by number of heads, then by mask.
// A turn for each number, as the definition has it, and no `sort_unstable_by_key`: that says a permutation in order,
// and not which. Compiled apart: in place, as `inline(always)` has it, the list is filled and copied twice more.
#[inline(never)]
pub fn row_order(present: &Presence) -> Rows
    ensures { result.items ≡ row_order (stands present.now.bytes.now) present.now.n }
{
    let mut masks = [0usize; 1024];
    let count = collect_present(present, &mut masks);
    let found = &masks[..count];
    let heads = row_heads(found);
    let mut rows = Rows::new();
    for c in 0..=present.n {
        for (i, &row) in found.iter().enumerate() {
            if heads[i] == c as u32 {
                rows.push(row);
            }
        }
    }
    rows
}
