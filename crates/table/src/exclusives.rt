// The second table: "Exclusives go to a second table, worked out from the first."
ghost use Rattle.std.specs.Prelude.{◌≡◌, ◌≤◌, ◌^◌, length};
ghost use Rattle.areas.specs.Exclusives.{to_exclusives};
ghost use Rattle.regions.specs.Slices.{slices_of, row_at, written_bytes, written_numbers};

use exclusive::areas::to_exclusive_areas;
use exclusive::copying::copy_first;
use plan::rows_needed;

// Rows 0 to 2^n - 1 of the second table: the bytes of the first, and the exclusive areas. Slices one by one: of
// `Tables` the contract would also say that the first table stays, and that each slice is the same as before.
pub(crate) fn write_exclusives(
    n: usize,
    presence: &[u8],
    rows: &[f64],
    exclusive_presence: &mut [u8],
    exclusives: &mut [f64],
)
    requires { (n ≤ 10) × (2 ^ n ≤ length presence.now) × (2 ^ n ≤ length rows.now)
        × (2 ^ n ≤ length exclusive_presence.old) × (2 ^ n ≤ length exclusives.old) }
    ensures exclusive_presence_after { exclusive_presence.new
        ≡ written_bytes (to_exclusives.of n (row_at (slices_of presence.now rows.now))) (2 ^ n)
        exclusive_presence.old }
    ensures exclusives_after { exclusives.new
        ≡ written_numbers (to_exclusives.of n (row_at (slices_of presence.now rows.now))) (2 ^ n) exclusives.old }
{
    let count = rows_needed(n);
    copy_first(presence, exclusive_presence, count);
    // taken, since no slice is too short
    let _ = to_exclusive_areas(presence, rows, exclusives, n);
}
