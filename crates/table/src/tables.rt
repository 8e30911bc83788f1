// Both lent tables written in one pass: the rows, and from them the exclusives. Every call that writes a
// table goes through here, with the sets before and after handed in as bytes, so that another list of sets
// needs no other pass.
ghost use Rattle.std.specs.Prelude.{◌≡◌, [], ◌∷◌};
ghost use Rattle.plan.specs.Table.{lent_by};
ghost use Rattle.regions.proofs.Slices.{Room};
ghost use Rattle.regions.specs.Slices.{lent_of};
ghost use Rattle.table.specs.Ready.{heads_in};
ghost use Rattle.table.specs.Rows.{rows_written};
ghost use Rattle.table.specs.Tables.{tables_in, SameSlices, tables_written};

use crate::exclusives::write_exclusives;
use crate::ready::Ready;
use crate::rows::{Update, write_rows};
use plan::Lent;

// The slices that a call lends for a plan's rows and for their exclusives: of both tables the presence bytes
// and the numbers.
// Four slices, as the C interface lends them.
// That a call leaves each slice in its place (`SameSlices`) stands in the contract of each: it says how the tables
// after a call belong to those before it, which no fact of the struct can say.
#[derive(Drop)]
pub struct Tables<'a> {
    pub presence: &'a mut [u8],
    pub rows: &'a mut [f64],
    pub exclusive_presence: &'a mut [u8],
    pub exclusives: &'a mut [f64],
}

// What four slices of these lengths lend, to be written or to be read alone: as many rows as the shortest has. Four
// lengths and no slices, as the call has taken them before: whoever only reads has shared slices, and no `Tables`.
pub fn lent_by(presence: usize, rows: usize, exclusive_presence: usize, exclusives: usize) -> Lent
    ensures { result ≡ lent_by (presence ∷ rows ∷ exclusive_presence ∷ exclusives ∷ []) 0 }
{
    Lent {
        rows: presence.min(rows).min(exclusive_presence).min(exclusives),
        gradients: 0,
    }
}

impl Tables<'_> {
    // What the four slices lend.
    pub fn lent(&self) -> Lent
        ensures { result ≡ lent_of (tables_in self.now) }
    {
        lent_by(
            self.presence.len(),
            self.rows.len(),
            self.exclusive_presence.len(),
            self.exclusives.len(),
        )
    }
}

// Rows 0 to 2^n - 1 of both tables.
pub(crate) fn write_tables(ready: &Ready, update: Update<'_>, tables: &mut Tables<'_>)
    requires { Room (heads_in ready.now) (tables_in tables.old) }
    ensures written { let u = update.entry in
        let row_of = rows_written ready.now u.change u.earlier.now u.later.now
        tables.old.presence.now tables.old.rows.now in
        tables_in tables.new ≡ tables_written (heads_in ready.now) row_of (tables_in tables.old) }
    ensures same_slices { SameSlices tables.old tables.new }
{
    let n = ready.circles.len();
    // One field after the other, since the borrow checker covers no two of a struct's references in one call.
    let presence = &mut *tables.presence;
    let rows = &mut *tables.rows;
    let exclusive_presence = &mut *tables.exclusive_presence;
    let exclusives = &mut *tables.exclusives;
    write_rows(ready, update, presence, rows);
    write_exclusives(n, presence, rows, exclusive_presence, exclusives);
}
