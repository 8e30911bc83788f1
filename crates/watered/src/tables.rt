// The calls of the C interface for a plan's tables: afresh, without the box, and edited. Each makes the plan and the
// tables of what C lends, calls `table`, whose definitions it has, and gives the answer's number. Those with and
// without the box are two, as C has two names.
ghost use Rattle.std.specs.Prelude.{◌≡◌};
ghost use Rattle.plan.specs.Table.{answer_number};
ghost use Rattle.regions.specs.Slices.{tables_of, plan_slices, afresh_slices, edit_slices};
ghost use Rattle.table.specs.Method.{clipped_table, open_table};
ghost use Rattle.table.specs.Tables.{edit_of};
ghost use Rattle.watered.specs.Handed as spec;
ghost use Rattle.watered.specs.Run.{Ran};

use crate::handed::{number_of, numbers_of, plan_of};
use plan::Edit;
use table::afresh::{afresh, open_afresh};
use table::edit::edit;
use table::run::{Edits, run};
use table::tables::Tables;

// The rows of a plan in its box and their exclusive areas, worked out afresh: presence bytes and numbers of rows 0 to
// 2^n - 1 of both tables. The answer is 0, or the refusal's number, which writes nothing.
pub fn watered_afresh(
    n: usize,
    sides: &[i32; 4],
    heads: &[i32; 30],
    presence: &mut [u8],
    rows: &mut [f64],
    exclusive_presence: &mut [u8],
    exclusives: &mut [f64],
) -> u32
    ensures value { result
        ≡ answer_number (afresh_slices clipped_table (plan_slices (spec.plan_of n sides.now heads.now)
        presence.old rows.old exclusive_presence.old exclusives.old)).answer }
    ensures exclusives_after { tables_of presence.new rows.new exclusive_presence.new exclusives.new
        ≡ (afresh_slices clipped_table (plan_slices (spec.plan_of n sides.now heads.now)
        presence.old rows.old exclusive_presence.old exclusives.old)).left.tables }
{
    let plan = plan_of(n, sides, heads);
    let mut tables = Tables {
        presence,
        rows,
        exclusive_presence,
        exclusives,
    };
    number_of(afresh(plan, &mut tables))
}

// The same without the box: row 0 is absent. The box is checked all the same.
pub fn watered_open_afresh(
    n: usize,
    sides: &[i32; 4],
    heads: &[i32; 30],
    presence: &mut [u8],
    rows: &mut [f64],
    exclusive_presence: &mut [u8],
    exclusives: &mut [f64],
) -> u32
    ensures value { result
        ≡ answer_number (afresh_slices open_table (plan_slices (spec.plan_of n sides.now heads.now)
        presence.old rows.old exclusive_presence.old exclusives.old)).answer }
    ensures exclusives_after { tables_of presence.new rows.new exclusive_presence.new exclusives.new
        ≡ (afresh_slices open_table (plan_slices (spec.plan_of n sides.now heads.now)
        presence.old rows.old exclusive_presence.old exclusives.old)).left.tables }
{
    let plan = plan_of(n, sides, heads);
    let mut tables = Tables {
        presence,
        rows,
        exclusive_presence,
        exclusives,
    };
    number_of(open_afresh(plan, &mut tables))
}

// Head number `head` of the plan gets a new place and radius (0 closes it), and both tables follow; the plan left
// stands in `heads`. The answer is 0, or the refusal's number, which leaves heads and tables.
pub fn watered_edit(
    n: usize,
    sides: &[i32; 4],
    heads: &mut [i32; 30],
    head: usize,
    x: i32,
    y: i32,
    radius: i32,
    presence: &mut [u8],
    rows: &mut [f64],
    exclusive_presence: &mut [u8],
    exclusives: &mut [f64],
) -> u32
    ensures value { result
        ≡ answer_number (edit_slices clipped_table (plan_slices (spec.plan_of n sides.now heads.old)
        presence.old rows.old exclusive_presence.old exclusives.old) (edit_of head x y radius)).answer }
    ensures heads_after { heads.new
        ≡ spec.numbers_of (edit_slices clipped_table (plan_slices (spec.plan_of n sides.now heads.old)
        presence.old rows.old exclusive_presence.old exclusives.old) (edit_of head x y radius)).left.plan.heads }
    ensures exclusives_after { tables_of presence.new rows.new exclusive_presence.new exclusives.new
        ≡ (edit_slices clipped_table (plan_slices (spec.plan_of n sides.now heads.old)
        presence.old rows.old exclusive_presence.old exclusives.old) (edit_of head x y radius)).left.tables }
{
    let plan = plan_of(n, sides, heads);
    let mut tables = Tables {
        presence,
        rows,
        exclusive_presence,
        exclusives,
    };
    let asked = Edit { head, x, y, radius };
    let booked = edit(plan, asked, &mut tables);
    *heads = numbers_of(booked.plan.heads);
    number_of(booked.answer)
}

// A list of edits, each tried on what the one before left: as many as the shortest of the five lists allows, which
// count it gives. Answer i is 0 where edit i was taken, or the refusal's number. The plan left stands in `heads`.
pub fn watered_run(
    n: usize,
    sides: &[i32; 4],
    heads: &mut [i32; 30],
    edit_heads: &[usize],
    x: &[i32],
    y: &[i32],
    radius: &[i32],
    answers: &mut [u8],
    presence: &mut [u8],
    rows: &mut [f64],
    exclusive_presence: &mut [u8],
    exclusives: &mut [f64],
) -> usize
    ensures { Ran clipped_table
        (plan_slices (spec.plan_of n sides.now heads.old) presence.old rows.old exclusive_presence.old exclusives.old)
        edit_heads.now x.now y.now radius.now answers.old
        result heads.new (tables_of presence.new rows.new exclusive_presence.new exclusives.new)
        answers.new }
{
    let plan = plan_of(n, sides, heads);
    let mut tables = Tables {
        presence,
        rows,
        exclusive_presence,
        exclusives,
    };
    let edits = Edits {
        head: edit_heads,
        x,
        y,
        radius,
    };
    let ran = run(plan, edits, answers, &mut tables);
    *heads = numbers_of(ran.plan.heads);
    ran.count
}
