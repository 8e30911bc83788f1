// "Afresh: a plan alone gives rows 0 to 2^n - 1." In the box and without it.
ghost use Rattle.std.specs.Prelude.{◌≡◌};
ghost use Rattle.std.specs.Option.{is_some};
ghost use Rattle.areas.specs.Sets.{plan_sets};
ghost use Rattle.regions.proofs.Slices.{Room};
ghost use Rattle.regions.specs.Slices.{step_of, afresh_slices};
ghost use Rattle.table.specs.Method.{method_over, clipped_table, open_table};
ghost use Rattle.table.specs.Ready.{Of, BoxOf};
ghost use Rattle.table.specs.Tables.{tables_in, plan_tables, SameSlices, tables_written, afresh_over};

use crate::ready::Ready;
use crate::rows::{Change, Update};
use crate::tables::{Tables, write_tables};
use drawn::box_of;
use geometry::bounds::Bounds;
use plan::check::check_call;
use plan::{Answer, Gradients, Plan};

// Both tables of an accepted plan made ready, over the sets of these bytes: an edit's pass with no sets
// before. Row 0 keeps its number in that pass, so the box's area is there first; without a box the pass makes
// row 0 absent.
fn write_afresh(plan: Plan, ready: &Ready, sets: &[u8; 1024], tables: &mut Tables<'_>)
    requires { Room plan.n (tables_in tables.old) × Of plan ready.now.bounds ready.now
        × BoxOf plan ready.now.bounds }
    ensures written { tables_in tables.new
        ≡ tables_written plan.n (afresh_over (method_over (is_some ready.now.bounds) plan_sets) plan sets.now)
        (tables_in tables.old) }
    ensures same_slices { SameSlices tables.old tables.new }
{
    tables.rows[0] = box_of(plan.ground).area();
    let update = Update {
        change: Change::default(),
        earlier: &[0; 1024],
        later: sets,
    };
    write_tables(ready, update, tables);
}

// A plan's tables in its box or without it, or a refusal that writes nothing.
fn work_out(plan: Plan, bounds: Option<Bounds>, tables: &mut Tables<'_>) -> Answer
    requires { BoxOf plan bounds }
    ensures step { step_of (plan_tables plan tables.new) result
        ≡ afresh_slices (method_over (is_some bounds) plan_sets) (plan_tables plan tables.old) }
    ensures same_slices { SameSlices tables.old tables.new }
{
    check_call(plan, Gradients::None, tables.lent())?;
    let ready = Ready::of(plan, bounds);
    let sets = ready.sets();
    write_afresh(plan, &ready, &sets, tables);
    Ok(())
}

// A plan's rows in its box, worked out afresh, and their exclusives: row 0 has the box's area. A refusal
// writes nothing.
pub fn afresh(plan: Plan, tables: &mut Tables<'_>) -> Answer
    ensures step { step_of (plan_tables plan tables.new) result
        ≡ afresh_slices clipped_table (plan_tables plan tables.old) }
    ensures same_slices { SameSlices tables.old tables.new }
{
    work_out(plan, Some(box_of(plan.ground).bounds()), tables)
}

// The same without the box: row 0 is absent. The box's fields are checked all the same.
pub fn open_afresh(plan: Plan, tables: &mut Tables<'_>) -> Answer
    ensures step { step_of (plan_tables plan tables.new) result
        ≡ afresh_slices open_table (plan_tables plan tables.old) }
    ensures same_slices { SameSlices tables.old tables.new }
{
    work_out(plan, None, tables)
}
