// A plan file fed in pieces of any size. A plan that is complete is worked out afresh into the tables lent with the
// piece, and an edit that is complete is tried on them.
ghost use Rattle.std.specs.Prelude.{◌≡◌, List, ◌++◌, ℕ};
ghost use Rattle.file.specs.File.{read_file};
ghost use Rattle.file.specs.Reader.{start};
ghost use Rattle.regions.specs.Slices.{LentTables, tables_of};
ghost use Rattle.table.specs.Method.{clipped_table};
ghost use Rattle.table.specs.Tables.{tables_in, plan_tables, SameSlices};
ghost use Rattle.reading.specs.Whole.{no_plan, file_answer};
ghost use Rattle.reading.specs.Reading.{state_in, handed_to, read_bytes, answer_at, AfterBytes};

use file::reader::{self, Completed, Reader};
use plan::check::check_call;
use plan::{Answer, Gradients, Plan};
use table::afresh::afresh;
use table::edit::edit;
use table::tables::{Tables, lent_by};

// The reader between two bytes, and the plan that the tables are of. The tables are lent with each call: to `feed` to
// be written, to `finish` and `print_file` to be read.
#[derive(Clone, Copy)]
pub struct Reading {
    pub reader: Reader,
    pub plan: Plan,
}

impl Reading {
    // Before the first byte.
    pub fn begin() -> Reading
        ensures { (result.reader ≡ start) × (result.plan ≡ no_plan) }
    {
        let reader = reader::start();
        Reading {
            reader,
            plan: reader.plan,
        }
    }

    // What the last byte completed, taken to the tables. A refusal by the tables is `finish`'s to tell.
    #[tactic(auto, unfolding(crate::specs::Reading::handed_to))]
    fn hand(&mut self, tables: &mut Tables<'_>)
        ensures reader { self.new.reader ≡ self.old.reader }
        ensures left { plan_tables self.new.plan tables.new
            ≡ handed_to clipped_table self.old.reader.handed self.old.reader.plan
            (plan_tables self.old.plan tables.old) }
        ensures same_slices { SameSlices tables.old tables.new }
    {
        match self.reader.handed {
            None => {}
            Some(Completed::ThePlan) => {
                let _ = afresh(self.reader.plan, tables);
                self.plan = self.reader.plan;
            }
            Some(Completed::AnEdit(change)) => {
                self.plan = edit(self.plan, change, tables).plan;
            }
        }
    }

    // A piece of a plan file.
    pub fn feed(&mut self, bytes: &[u8], tables: &mut Tables<'_>)
        ensures state_after { state_in self.new (tables_in tables.new)
            ≡ read_bytes clipped_table (state_in self.old (tables_in tables.old)) bytes.now }
        ensures after_bytes { (t : LentTables) (s : List ℕ)
            → AfterBytes clipped_table t s (state_in self.old (tables_in tables.old))
            → AfterBytes clipped_table t (s ++ bytes.now) (state_in self.new (tables_in tables.new)) }
        ensures same_slices { SameSlices tables.old tables.new }
    {
        for byte in bytes {
            self.reader = reader::step(self.reader, *byte);
            self.hand(tables);
        }
    }

    // The answer where the file ends here: the file's own, and then that of the tables. Four slices one by one, lent to
    // be read: `Tables` lends to be written, and a struct of four shared ones would be made for this call and
    // `print_file` alone.
    pub fn finish(
        self,
        presence: &[u8],
        rows: &[f64],
        exclusive_presence: &[u8],
        exclusives: &[f64],
    ) -> Answer
        ensures value { let now = tables_of presence.now rows.now exclusive_presence.now exclusives.now in
            result ≡ answer_at (state_in self now) }
        ensures value_2 { let now = tables_of presence.now rows.now exclusive_presence.now exclusives.now in
            (t : LentTables) (s : List ℕ) → AfterBytes clipped_table t s (state_in self now)
            → result ≡ file_answer t (read_file s) }
    {
        reader::finish(self.reader)?;
        let lent = lent_by(
            presence.len(),
            rows.len(),
            exclusive_presence.len(),
            exclusives.len(),
        );
        check_call(self.plan, Gradients::None, lent)
    }
}
