// The tables of a plan, in the box or without it, and the rows that lines are about. What is written has to be
// written: the tables begin with other bytes and numbers.
ghost use Rattle.std.specs.Prelude.{◌<◌, ◌≤◌};

use plan::{Answer, Plan};
use stored::numbers::same;
use table::afresh::{afresh, open_afresh};
use table::tables::Tables;

// A plan's rows and exclusives. (Arrays, here and below, and a place in each for a row: the calls of crates `table` and
// `gradients` are lent slices as the C interface lends them.)
#[derive(Clone, Copy)]
pub struct Areas {
    pub presence: [u8; 1024],
    pub rows: [f64; 1024],
    pub exclusive_presence: [u8; 1024],
    pub exclusives: [f64; 1024],
}

impl Areas {
    // As slices.
    fn lend(&mut self) -> Tables<'_> {
        let Areas {
            presence,
            rows,
            exclusive_presence,
            exclusives,
        } = self;
        Tables {
            presence,
            rows,
            exclusive_presence,
            exclusives,
        }
    }
}

// A plan's rows and exclusives, and its exclusives as they come with their gradients, of which a row has `width`
// numbers. There is room for ten heads in a box.
#[derive(Clone, Copy)]
pub struct Table {
    pub areas: Areas,
    pub width: usize,
    pub slope_presence: [u8; 1024],
    pub slope_exclusives: [f64; 1024],
    pub gradients: [f64; 34816],
    ghost narrow: { width ≤ 34 },
}

impl Table {
    // Before anything is written.
    pub(crate) fn unwritten(width: usize) -> Table
        requires { width ≤ 34 }
    {
        Table {
            areas: Areas {
                presence: [9; 1024],
                rows: [9.0; 1024],
                exclusive_presence: [9; 1024],
                exclusives: [9.0; 1024],
            },
            width,
            slope_presence: [9; 1024],
            slope_exclusives: [9.0; 1024],
            gradients: [9.0; 34816],
        }
    }

    // The plan's in the box, where both calls take it. A gradient has three numbers a head, and four for the box.
    // (This and the next are two: one that is handed the width and both calls would be longer than both.)
    pub(crate) fn write_clipped(&mut self, plan: Plan) -> Answer {
        *self = Table::unwritten(plan.n.min(10) * 3 + 4);
        afresh(plan, &mut self.areas.lend())?;
        gradients::gradients(
            plan,
            &mut self.slope_presence,
            &mut self.slope_exclusives,
            &mut self.gradients,
        )
    }

    // The same without the box.
    pub(crate) fn write_open(&mut self, plan: Plan) -> Answer {
        *self = Table::unwritten(plan.n.min(10) * 3);
        open_afresh(plan, &mut self.areas.lend())?;
        gradients::open_gradients(
            plan,
            &mut self.slope_presence,
            &mut self.slope_exclusives,
            &mut self.gradients,
        )
    }

    // Whether a line has the gradient of row s first in these numbers. (The last line here and in `replay`: in
    // `stored` its contract would be longer than that line.)
    fn same_entries(&self, numbers: &[u64], s: usize) -> bool
        requires { s < 1024 }
    {
        let from = s * self.width;
        let row = &self.gradients[from..from + self.width];
        row.len() <= numbers.len() && row.iter().zip(numbers).all(|(x, bits)| same(*x, *bits))
    }

    // Whether row s has this presence byte throughout, and +0 throughout where it is absent. (A byte, as the tables
    // have.)
    pub(crate) fn same_absence(&self, s: usize, presence: u8) -> bool {
        s < 1024
            && self.areas.presence[s] == presence
            && self.areas.exclusive_presence[s] == presence
            && self.slope_presence[s] == presence
            && (presence == 1
                || (same(self.areas.rows[s], 0)
                    && same(self.areas.exclusives[s], 0)
                    && same(self.slope_exclusives[s], 0)
                    && self.same_entries(&[0; 34], s)))
    }

    // Whether row s is there, and has the area and the exclusive area of a line R or U.
    pub(crate) fn same_row(&self, words: &[u64; 40], s: usize) -> bool {
        s < 1024
            && self.areas.presence[s] == 1
            && same(self.areas.rows[s], words[2])
            && same(self.areas.exclusives[s], words[3])
    }

    // Whether row s is there, and has the exclusive area and the gradient of a line G or F.
    pub(crate) fn same_slopes(&self, words: &[u64; 40], s: usize) -> bool {
        s < 1024
            && self.slope_presence[s] == 1
            && same(self.slope_exclusives[s], words[2])
            && self.same_entries(&words[3..], s)
    }
}
