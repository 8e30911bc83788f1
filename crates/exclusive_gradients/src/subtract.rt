// From the last row to the first: each number less the sum of what stands for its row's strict supersets, in place. The
// table has `width` numbers a row, a gradient; exclusive/src/levels.rt is for the areas. Rests on Exclusive.antt and
// Entries.antt, exclusive/specs.
ghost use Rattle.std.specs.Prelude.{◌≡◌, suc, ◌+◌, ◌*◌, ◌≤◌, ◌<◌, ◌^◌, min, length, get_or, take};
ghost use Rattle.std.specs.Float.{nan};
ghost use Rattle.lists.specs.Lists.{keep};
ghost use Rattle.lists.specs.Every.{Every};
ghost use Rattle.lists.specs.Written.{tab};
ghost use Rattle.masks.specs.Mask.{subset};
ghost use Rattle.masks.specs.Presence.{stands};
ghost use Rattle.binary64.specs.Floats.{◌+ᶠ◌};
ghost use Rattle.exclusive.specs.Entries.{row_sums, RowSubtracted, Subtracted};

use exclusive::presence::Presence;
use exclusive::rows::row_order;
use masks::is_subset;

// The supersets of s among these rows: how many there are, and they stand first in `supersets`. Each row is written,
// and the next takes its place if it is none: nothing waits for the test. Why no function is shared with
// `collect_present` of `exclusive` stands there.
fn collect_supersets(s: usize, rows: &[usize], supersets: &mut [usize; 1024]) -> usize
    requires { length rows.now ≤ 1024 }
    ensures supersets_after { take result supersets.new ≡ keep (subset 64 s) rows.now }
    ensures upper_bound { result ≤ 1024 }
{
    let mut found = 0;
    for row in rows {
        supersets[found] = *row;
        found += usize::from(is_subset(s, *row));
    }
    found
}

// N numbers that stand side by side are added to N sums.
fn add_numbers<const N: usize>(numbers: &[f64], at: usize, sums: &mut [f64; N])
    requires { at + N ≤ length numbers.now }
    ensures { sums.new ≡ tab (λ q. get_or sums.old q nan +ᶠ get_or numbers.now (at + q) nan) N }
{
    for q in 0..N {
        sums[q] += numbers[at + q];
    }
}

// The sums of N numbers, from number k on, of these rows.
fn sum_rows<const N: usize>(rows: &[usize], numbers: &[f64], width: usize, k: usize) -> [f64; N]
    requires { (k + N ≤ width) × Every (λ T. suc T * width ≤ length numbers.now) rows.now }
    ensures { result ≡ tab (λ q. row_sums width numbers.now rows.now (k + q)) N }
{
    let mut sums = [0.0; N];
    for row in rows {
        add_numbers(numbers, *row * width + k, &mut sums);
    }
    sums
}

// Where the N numbers to be summed next begin, number k of the row being the first that is left: at k, or N before the
// end of the row.
fn next_start<const N: usize>(k: usize, width: usize) -> usize
    requires { (N ≤ width) × (k < width) × (0 < N) }
    ensures { (result ≤ k) × (result + N ≡ min (k + N) width) }
{
    k.min(width - N)
}

// From each number of row s the sum of that number of these rows, N numbers at a time: their sums do not wait for one
// another. That the rows lie within the numbers is asked here and by the functions beside it, and held by no struct: it
// would have to lend the numbers to be written, and be taken apart in each of them.
fn subtract_rows<const N: usize>(s: usize, rows: &[usize], numbers: &mut [f64], width: usize)
    requires { (0 < N) × (N ≤ 8) × (0 < width → N ≤ width) × (suc s * width ≤ length numbers.old)
        × Every (λ T. suc T * width ≤ length numbers.old) rows.now × Every (λ T. T ≡ s → ⊥) rows.now }
    ensures { RowSubtracted width s (row_sums width numbers.old rows.now) width numbers.old numbers.new }
{
    for k in (0..width).step_by(N) {
        // Where fewer than N numbers are left, N numbers from before k are summed, and only those from k on subtracted.
        let from = next_start::<N>(k, width);
        let sums = sum_rows::<N>(rows, numbers, width, from);
        for q in k - from..N {
            numbers[s * width + (from + q)] -= sums[q];
        }
    }
}

// From each number of row s the sum of that number of these rows.
fn subtract_row(s: usize, rows: &[usize], numbers: &mut [f64], width: usize)
    requires { (suc s * width ≤ length numbers.old)
        × Every (λ T. suc T * width ≤ length numbers.old) rows.now × Every (λ T. T ≡ s → ⊥) rows.now }
    ensures { RowSubtracted width s (row_sums width numbers.old rows.now) width numbers.old numbers.new }
{
    if width < 8 {
        subtract_rows::<1>(s, rows, numbers, width);
    } else {
        subtract_rows::<8>(s, rows, numbers, width);
    }
}

// From the last row to the first: each number less the sum of what stands for the strict supersets.
pub(crate) fn subtract_supersets(present: &Presence, numbers: &mut [f64], width: usize)
    requires { 2 ^ present.now.n * width ≤ length numbers.old }
    ensures { Subtracted present.now.n (stands present.now.bytes.now) width numbers.old numbers.new }
{
    let order = row_order(present);
    let rows = order.as_slice();
    let mut supersets = [0usize; 1024];
    for i in (0..rows.len()).rev() {
        let s = rows[i];
        let found = collect_supersets(s, &rows[i + 1..], &mut supersets);
        subtract_row(s, &supersets[..found], numbers, width);
    }
}
