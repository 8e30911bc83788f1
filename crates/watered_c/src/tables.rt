// The exports of a plan's tables: afresh, without the box, and edited.
ghost use Rattle.std.specs.Prelude.{◌≡◌};
ghost use Rattle.plan.specs.Table.{answer_number};
ghost use Rattle.regions.specs.Slices.{tables_of, plan_slices, afresh_slices, edit_slices};
ghost use Rattle.table.specs.Method.{clipped_table, open_table};
ghost use Rattle.table.specs.Tables.{edit_of};
ghost use Rattle.watered.specs.Handed as spec;
ghost use Rattle.watered.specs.Run.{Ran};

// The rows of a plan in its box and their exclusive areas, worked out afresh: presence bytes and numbers of rows 0 to
// 2^n - 1 of both tables. The answer is 0, or the refusal's number, which writes nothing.
#[unsafe(no_mangle)]
pub extern "C" fn watered_afresh(
    n: usize,
    sides: &[i32; 4],
    heads: &[i32; 30],
    presence: &mut [u8],
    rows: &mut [f64],
    exclusive_presence: &mut [u8],
    exclusives: &mut [f64],
) -> u32
    ensures value { result
        ≡ answer_number (afresh_slices clipped_table (plan_slices (spec.plan_of n sides.now heads.now)
        presence.old rows.old exclusive_presence.old exclusives.old)).answer }
    ensures exclusives_after { tables_of presence.new rows.new exclusive_presence.new exclusives.new
        ≡ (afresh_slices clipped_table (plan_slices (spec.plan_of n sides.now heads.now)
        presence.old rows.old exclusive_presence.old exclusives.old)).left.tables }
{
    watered::tables::watered_afresh(
        n,
        sides,
        heads,
        presence,
        rows,
        exclusive_presence,
        exclusives,
    )
}

// The same without the box: row 0 is absent. The box is checked all the same.
#[unsafe(no_mangle)]
pub extern "C" fn watered_open_afresh(
    n: usize,
    sides: &[i32; 4],
    heads: &[i32; 30],
    presence: &mut [u8],
    rows: &mut [f64],
    exclusive_presence: &mut [u8],
    exclusives: &mut [f64],
) -> u32
    ensures value { result
        ≡ answer_number (afresh_slices open_table (plan_slices (spec.plan_of n sides.now heads.now)
        presence.old rows.old exclusive_presence.old exclusives.old)).answer }
    ensures exclusives_after { tables_of presence.new rows.new exclusive_presence.new exclusives.new
        ≡ (afresh_slices open_table (plan_slices (spec.plan_of n sides.now heads.now)
        presence.old rows.old exclusive_presence.old exclusives.old)).left.tables }
{
    watered::tables::watered_open_afresh(
        n,
        sides,
        heads,
        presence,
        rows,
        exclusive_presence,
        exclusives,
    )
}

// Head number `head` of the plan gets a new place and radius (0 closes it), and both tables follow; the plan left
// stands in `heads`. The answer is 0, or the refusal's number, which leaves heads and tables.
#[unsafe(no_mangle)]
pub extern "C" fn watered_edit(
    n: usize,
    sides: &[i32; 4],
    heads: &mut [i32; 30],
    head: usize,
    x: i32,
    y: i32,
    radius: i32,
    presence: &mut [u8],
    rows: &mut [f64],
    exclusive_presence: &mut [u8],
    exclusives: &mut [f64],
) -> u32
    ensures value { result
        ≡ answer_number (edit_slices clipped_table (plan_slices (spec.plan_of n sides.now heads.old)
        presence.old rows.old exclusive_presence.old exclusives.old) (edit_of head x y radius)).answer }
    ensures heads_after { heads.new
        ≡ spec.numbers_of (edit_slices clipped_table (plan_slices (spec.plan_of n sides.now heads.old)
        presence.old rows.old exclusive_presence.old exclusives.old) (edit_of head x y radius)).left.plan.heads }
    ensures exclusives_after { tables_of presence.new rows.new exclusive_presence.new exclusives.new
        ≡ (edit_slices clipped_table (plan_slices (spec.plan_of n sides.now heads.old)
        presence.old rows.old exclusive_presence.old exclusives.old) (edit_of head x y radius)).left.tables }
{
    watered::tables::watered_edit(
        n,
        sides,
        heads,
        head,
        x,
        y,
        radius,
        presence,
        rows,
        exclusive_presence,
        exclusives,
    )
}

// A list of edits, each tried on what the one before left: as many as the shortest of the five lists allows, which
// count it gives. Answer i is 0 where edit i was taken, or the refusal's number. The plan left stands in `heads`.
#[unsafe(no_mangle)]
pub extern "C" fn watered_run(
    n: usize,
    sides: &[i32; 4],
    heads: &mut [i32; 30],
    edit_heads: &[usize],
    x: &[i32],
    y: &[i32],
    radius: &[i32],
    answers: &mut [u8],
    presence: &mut [u8],
    rows: &mut [f64],
    exclusive_presence: &mut [u8],
    exclusives: &mut [f64],
) -> usize
    ensures { Ran clipped_table
        (plan_slices (spec.plan_of n sides.now heads.old) presence.old rows.old exclusive_presence.old exclusives.old)
        edit_heads.now x.now y.now radius.now answers.old
        result heads.new (tables_of presence.new rows.new exclusive_presence.new exclusives.new)
        answers.new }
{
    watered::tables::watered_run(
        n,
        sides,
        heads,
        edit_heads,
        x,
        y,
        radius,
        answers,
        presence,
        rows,
        exclusive_presence,
        exclusives,
    )
}
