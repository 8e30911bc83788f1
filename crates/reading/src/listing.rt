// What the program prints of a plan file: the lines of the exclusives after the last edit, or a refusal's line
// (specs/Whole.antt).
ghost use Rattle.std.specs.Prelude.{List, ℕ, ◌≤◌};
ghost use Rattle.file.specs.File.{read_file};
ghost use Rattle.regions.specs.Slices.{LentTables, tables_of};
ghost use Rattle.table.specs.Method.{clipped_table};
ghost use Rattle.printing.specs.Text.{Printed};
ghost use Rattle.reading.specs.Whole.{file_printed};
ghost use Rattle.reading.specs.Reading.{state_in, printed_at, AfterBytes};

use crate::feeding::Reading;
use printing::refusal::print_refusal;
use printing::rows::print_rows;

// At the front of `out`; gives how many bytes there are, of which `out` has the first that it has room for: 21504 are
// always enough. A slice and a count, as `printing` writes; and a refusal by its number and offset, since `printing`
// knows no plan.
pub fn print_file(
    reading: Reading,
    presence: &[u8],
    rows: &[f64],
    exclusive_presence: &[u8],
    exclusives: &[f64],
    out: &mut [u8],
) -> usize
    ensures printed { let now = tables_of presence.now rows.now exclusive_presence.now exclusives.now in
        Printed (printed_at (state_in reading now)) out.old out.new result }
    ensures printed_2 { let now = tables_of presence.now rows.now exclusive_presence.now exclusives.now in
        (t : LentTables) (s : List ℕ) → AfterBytes clipped_table t s (state_in reading now)
        → Printed (file_printed clipped_table t (read_file s)) out.old out.new result }
    ensures upper_bound { result ≤ 21504 }
{
    match reading.finish(presence, rows, exclusive_presence, exclusives) {
        Ok(()) => print_rows(exclusive_presence, exclusives, reading.plan.n, out),
        Err(refused) => print_refusal(u64::from(u8::from(refused.refusal)), refused.at, out),
    }
}
