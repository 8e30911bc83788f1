// Exclusive areas from presence bytes and areas (the Rust's to_exclusive_areas). Rests on specs/Exclusive.antt.
ghost use Rattle.std.specs.Prelude.{◌≡◌, cond, min, ◌≤◌, ◌^◌, eqb, get_or, length};
ghost use Rattle.std.specs.Float.{nan};
ghost use Rattle.lists.specs.Written.{written};
ghost use Rattle.masks.specs.Presence.{stands};
ghost use Rattle.binary64.specs.Constants.{zero64};
ghost use Rattle.binary64.specs.Functions.{clamp_to_zero};
ghost use Rattle.exclusive.specs.Exclusive.{exclusive_row, rows_check, rows_number};
ghost use Rattle.exclusive.specs.Exclusive.{exclusive_table, exclusives_in_place};

use crate::copying::copy_first;
use crate::levels::subtract_levels;
use crate::presence::Presence;
use binary64::clamp_to_zero;

// Why tables are refused, under document 01's numbers.
// Not `plan::Refusal`: this crate knows no plan.
#[derive(Clone, Copy, PartialEq, Eq, Debug)]
pub enum RowsError {
    TooManyHeads = 2,
    TablesTooShort = 7,
}

// Document 01's number of an answer: 0 where the tables are taken.
// For the exports of `probe`, which hand a number out.
pub fn rows_number(answer: Result<(), RowsError>) -> u8
    ensures { result ≡ rows_number answer }
{
    match answer {
        Ok(()) => 0,
        Err(error) => error as u8,
    }
}

// Whether tables of so many rows are taken for n heads.
pub fn rows_answer(n: usize, rows: usize) -> Result<(), RowsError>
    ensures { result ≡ rows_check n rows }
{
    if 10 < n {
        return Err(RowsError::TooManyHeads);
    }
    if rows < 1usize << n {
        return Err(RowsError::TablesTooShort);
    }
    Ok(())
}

// A number clamped where its row is present, and +0 where it is absent.
fn clamped(byte: u8, number: f64) -> f64
    ensures { result ≡ cond (eqb byte 1) (clamp_to_zero number) zero64 }
{
    if byte == 1 {
        return clamp_to_zero(number);
    }
    0.0
}

// Document 01: "Clamping comes last."
// That a table has 2^n rows is asked here by each function that writes one: a type that lends the presence with the
// table would be made in each of the public functions, and be no shorter.
fn clamp_rows(present: &Presence, numbers: &mut [f64])
    requires { 2 ^ present.now.n ≤ length numbers.old }
    ensures { let P = present.now in numbers.new ≡ written
        (λ S. cond (stands P.bytes.now S) (clamp_to_zero (get_or numbers.old S nan)) zero64) (2 ^ P.n) numbers.old }
{
    let bytes = present.bytes;
    // By index: a row's byte stands at the index of its number. Tried with `zip`, and the proof did not close: of
    // numbers that are written through a `zip` nothing is known after the loop.
    for s in 0..present.row_count() {
        numbers[s] = clamped(bytes[s], numbers[s]);
    }
}

// The rows of a table of areas become exclusives, in place.
fn exclude(present: &Presence, areas: &mut [f64])
    requires { 2 ^ present.now.n ≤ length areas.old }
    ensures { let P = present.now in areas.new
        ≡ written (exclusive_row P.n (stands P.bytes.now) (λ S. get_or areas.old S nan)) (2 ^ P.n) areas.old }
{
    subtract_levels(present, areas);
    clamp_rows(present, areas);
}

// The rows of the table of exclusives: the areas, worked on in place.
fn write_exclusives(present: &Presence, areas: &[f64], exclusives: &mut [f64])
    requires { (2 ^ present.now.n ≤ length areas.now) × (2 ^ present.now.n ≤ length exclusives.old) }
    ensures { let P = present.now in exclusives.new
        ≡ written (exclusive_row P.n (stands P.bytes.now) (λ S. get_or areas.now S nan)) (2 ^ P.n) exclusives.old }
{
    let rows = present.row_count();
    copy_first(areas, exclusives, rows);
    exclude(present, exclusives);
}

// The exclusive areas of n heads, from presence bytes and areas. Refused, for more than ten heads or where a table has
// fewer than 2^n rows, nothing is written.
// n and the slices one by one, here and in the next: any are accepted, and a `Presence` would ask for the room.
pub fn to_exclusive_areas(
    present: &[u8],
    areas: &[f64],
    exclusives: &mut [f64],
    n: usize,
) -> Result<(), RowsError>
    ensures value { result ≡ rows_check n (min (length present.now) (min (length areas.now) (length exclusives.old))) }
    ensures exclusives_after { exclusives.new ≡ exclusive_table n present.now areas.now exclusives.old }
{
    rows_answer(n, present.len().min(areas.len().min(exclusives.len())))?;
    let present = Presence { n, bytes: present };
    write_exclusives(&present, areas, exclusives);
    Ok(())
}

// The same with one table: the exclusives take the place of the areas. `to_unclamped_areas` of steps.rt is built like
// it and promises something else: numbers that are not clamped, and absent rows that stay.
pub fn to_exclusive_areas_in_place(
    present: &[u8],
    areas: &mut [f64],
    n: usize,
) -> Result<(), RowsError>
    ensures value { result ≡ rows_check n (min (length present.now) (length areas.old)) }
    ensures areas_after { areas.new ≡ exclusives_in_place n present.now areas.old }
{
    rows_answer(n, present.len().min(areas.len()))?;
    let present = Presence { n, bytes: present };
    exclude(&present, areas);
    Ok(())
}
