// One edit of a plan and its tables in the box: document 01's "Edit", and demand 3's second half.
ghost use Rattle.std.specs.Prelude.{◌≡◌, ◌≤◌, ◌<◌};
ghost use Rattle.plan.specs.Table.{taken};
ghost use Rattle.regions.specs.Demand.{Reworks};
ghost use Rattle.regions.specs.Slices.{slices_of, row_at, step_of, edit_slices};
ghost use Rattle.table.specs.Method.{clipped_table};
ghost use Rattle.table.specs.Tables.{plan_tables, SameSlices, change_of};

use crate::met::met_by;
use crate::ready::Ready;
use crate::rows::{Change, Update};
use crate::tables::{Tables, write_tables};
use drawn::box_of;
use heads::Head;
use plan::book::{Booked, enter};
use plan::{Edit, Plan};

// The edited head, and the heads that it meets before or after.
fn change_of(plan: Plan, edit: Edit) -> Change
    requires { (plan.n ≤ 10) × (edit.head < plan.n) }
    ensures { result ≡ change_of plan edit }
{
    Change {
        own: 1 << edit.head,
        met: met_by(&plan.heads[..plan.n], edit.head, Head::from(edit)),
    }
}

// A head gets a new place and radius, and both tables follow: rows that the edit touches are worked out anew,
// every other row still present keeps the number handed in, row 0 too, and the exclusives are worked out from
// the rows left. A refusal leaves plan and tables. The sets before and after come from the plans alone: the
// presence bytes handed in are not read.
pub fn edit(plan: Plan, edit: Edit, tables: &mut Tables<'_>) -> Booked
    ensures step { step_of (plan_tables result.plan tables.new) result.answer
        ≡ edit_slices clipped_table (plan_tables plan tables.old) edit }
    ensures reworks { result.answer ≡ taken
        → Reworks clipped_table plan edit
        (row_at (slices_of tables.old.presence.now tables.old.rows.now))
        (row_at (slices_of tables.new.presence.now tables.new.rows.now)) }
    ensures same_slices { SameSlices tables.old tables.new }
{
    let booked = enter(plan, edit, tables.lent());
    if booked.answer.is_ok() {
        let bounds = Some(box_of(plan.ground).bounds());
        let ready_before = Ready::of(plan, bounds);
        let ready = Ready::of(booked.plan, bounds);
        let earlier = ready_before.sets();
        let later = ready.sets();
        let update = Update {
            change: change_of(plan, edit),
            earlier: &earlier,
            later: &later,
        };
        write_tables(&ready, update, tables);
    }
    booked
}
