// A list of edits, one after the other: demand 3's list on the code.
ghost use Rattle.std.specs.Prelude.{◌≡◌, ◌<◌, [], ◌∷◌, length};
ghost use Rattle.plan.specs.Table.{least};
ghost use Rattle.regions.specs.Run as list;
ghost use Rattle.table.specs.Method.{clipped_table};
ghost use Rattle.table.specs.Tables.{plan_tables, SameSlices};

use crate::edit::edit;
use crate::tables::Tables;
use plan::{Edit, Plan, answer_number};

// The edits of a run: number i of each list makes edit i. Four lists, since the C interface lends them so,
// and there is no heap to put them together.
#[derive(Clone, Copy)]
pub struct Edits<'a> {
    pub head: &'a [usize],
    pub x: &'a [i32],
    pub y: &'a [i32],
    pub radius: &'a [i32],
}

impl Edits<'_> {
    // As many as the shortest list allows.
    fn count(self) -> usize
        ensures { result
            ≡ least (length self.entry.head.now ∷ length self.entry.x.now ∷ length self.entry.y.now
            ∷ length self.entry.radius.now ∷ []) }
    {
        self.head
            .len()
            .min(self.x.len())
            .min(self.y.len())
            .min(self.radius.len())
    }

    // Edit number i.
    fn at(self, i: usize) -> Edit
        requires { (i < length self.head.now) × (i < length self.x.now) × (i < length self.y.now)
            × (i < length self.radius.now) }
        ensures { result
            ≡ list.edit_at self.entry.head.now self.entry.x.now self.entry.y.now self.entry.radius.now i }
    {
        Edit {
            head: self.head[i],
            x: self.x[i],
            y: self.y[i],
            radius: self.radius[i],
        }
    }
}

// The plan that a run leaves, and how many edits it tried.
#[derive(Clone, Copy)]
pub struct Ran {
    pub plan: Plan,
    pub count: usize,
}

// As many edits as the shortest list allows, the list of answers included, each tried on what the one before
// left. Answer i is the number of edit i's answer, 0 where it was taken. Numbers and no Answers: the C interface lends
// bytes for them.
pub fn run(plan: Plan, edits: Edits<'_>, answers: &mut [u8], tables: &mut Tables<'_>) -> Ran
    ensures ran { list.Ran clipped_table (plan_tables plan tables.old)
        edits.entry.head.now edits.entry.x.now edits.entry.y.now edits.entry.radius.now answers.old
        result.count (plan_tables result.plan tables.new) answers.new }
    ensures same_slices { SameSlices tables.old tables.new }
{
    let count = edits.count().min(answers.len());
    let mut left = plan;
    for (i, answer) in answers[..count].iter_mut().enumerate() {
        let booked = edit(left, edits.at(i), tables);
        left = booked.plan;
        *answer = answer_number(booked.answer);
    }
    Ran { plan: left, count }
}
