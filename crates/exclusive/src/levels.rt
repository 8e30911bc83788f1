// The areas by levels, the rows of the same number of heads: what is to be subtracted from the rows of one level is
// summed for all of them side by side. A row that is no superset gives +0, which changes no sum, so that nothing is
// asked between the additions. Rests on specs/Entries.antt.
ghost use Rattle.std.specs.Prelude.{◌≡◌, [], ◌∷◌, ◌-◌, ◌≤◌, ◌<◌, ◌^◌, length, get_or, drop};
ghost use Rattle.std.specs.Int.Count.{ones};
ghost use Rattle.std.specs.Float.{nan};
ghost use Rattle.lists.specs.Every.{Every};
ghost use Rattle.masks.specs.Presence.{stands};
ghost use Rattle.exclusive.specs.Entries.{LevelAdded, Subtracted};

use crate::presence::Presence;
use crate::rows::row_order;
use masks::is_subset;

// Where the level that ends at place `hi` starts: it lies below `hi`, and all rows from there on have the same
// number of heads.
fn level_start(rows: &[usize], hi: usize) -> usize
    requires { (0 < hi) × (hi ≤ length rows.now) }
    ensures starts_before { result < hi }
    ensures as_many_heads { let heads = ones (get_or rows.now (hi - 1) 0) in
        (i : _) → result ≤ i → i < hi → ones (get_or rows.now i 0) ≡ heads }
{
    let heads = rows[hi - 1].count_ones();
    rows[..hi]
        .iter()
        .rposition(|row| row.count_ones() != heads)
        .map_or(0, |last| last + 1)
}

// The rows from place lo to place hi of the order, all of the same number of heads.
#[derive(Clone, Copy)]
struct Level<'a> {
    rows: &'a [usize],
    lo: usize,
    hi: usize,
    ghost within: { hi ≤ length rows.now },
    ghost few: { length rows.now ≤ 1024 },
}

impl Level<'_> {
    // A number of row t is added to the sums of the rows of the level that are its subsets.
    // By index. Tried with `zip`, and the proof did not close: of sums that are written through a `zip` nothing is
    // known after the loop.
    fn add_row(&self, t: usize, number: f64, sums: &mut [f64; 1024])
        ensures { let L = self.now in LevelAdded L.rows.now L.lo L.hi (λ T. number) (t ∷ []) sums.old sums.new }
    {
        let rows = self.rows;
        for i in self.lo..self.hi {
            let part = if is_subset(rows[i], t) { number } else { 0.0 };
            sums[i] += part;
        }
    }

    // The areas of the rows after the level, in row order, are added to the sums of the level's rows that are their
    // subsets.
    fn add_rows_after(&self, areas: &[f64], sums: &mut [f64; 1024])
        requires { Every (λ T. T < length areas.now) self.now.rows.now }
        ensures { let L = self.now in
            LevelAdded L.rows.now L.lo L.hi (λ T. get_or areas.now T nan) (drop L.hi L.rows.now) sums.old sums.new }
    {
        for &t in &self.rows[self.hi..] {
            self.add_row(t, areas[t], sums);
        }
    }
}

// From the last level to the first: each area less the sum of what stands for its row's strict supersets, in place.
pub(crate) fn subtract_levels(present: &Presence, areas: &mut [f64])
    requires { 2 ^ present.now.n ≤ length areas.old }
    ensures { Subtracted present.now.n (stands present.now.bytes.now) 1 areas.old areas.new }
{
    let order = row_order(present);
    let rows = order.as_slice();
    let mut sums = [0.0; 1024];
    let mut hi = rows.len();
    // One level a turn, and no `chunk_by`: its contract speaks of runs, and hands a level over without its places among
    // the sums.
    while 0 < hi {
        let lo = level_start(rows, hi);
        Level { rows, lo, hi }.add_rows_after(areas, &mut sums);
        // By index. Tried as a `zip` of rows and sums, from the last on, and slower, of whole calls by a fifth at 20 to
        // 60 rows.
        for i in (lo..hi).rev() {
            let s = rows[i];
            areas[s] -= sums[i];
        }
        hi = lo;
    }
}
