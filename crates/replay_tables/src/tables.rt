// The tables of the plan that a line H begins, and the lines after it about them. The answers are
//   H  a plan: n (place 1), the box's centre x, centre y, width and height (2 to 5), x, y and radius of each
//      head (from 6 on)
//   D  which masks are sets of the plan, 64 to a number (from place 1 on): bit j of the k-th is mask 64 k + j.
//      Absent rows are +0
//   R  of a set or of 0 (1) its row in the box (2) and its exclusive area (3)
//   U  of a set (1) its row without the box (2) and its exclusive area (3)
//   G  of a set or of 0 (1) its exclusive area in the box as it comes with its gradient (2), and that gradient's
//      3n + 4 numbers (from 3 on)
//   F  of a set (1) the same without the box, 3n numbers
//   O  the area that all heads water together (1)
//   M  of any mask of heads (1) the area that they water together (2)
ghost use Rattle.std.specs.Prelude.{◌≤◌};

use crate::numbers::{listed, signed};
use crate::rows::Table;
use drawn::plan_circles;
use heads::Head;
use overlaps::overlaps::{compute_overlaps_circles, compute_overlaps_of};
use plan::{Ground, Plan, rows_needed};
use std::array;
use stored::line::Line;
use stored::numbers::same;

// The head of three numbers.
fn head_of([x, y, radius]: [u64; 3]) -> Head {
    Head {
        x: signed(x),
        y: signed(y),
        radius: signed(radius),
    }
}

// The plan of a line H.
fn plan_of(words: &[u64; 40]) -> Plan {
    let [_, n, x, y, width, height, ..] = *words;
    let (threes, _) = words[6..].as_chunks::<3>();
    Plan {
        ground: Ground {
            x: signed(x),
            y: signed(y),
            width: signed(width),
            height: signed(height),
        },
        n: n as usize,
        heads: array::from_fn(|i| head_of(threes[i])),
    }
}

// The place of the last number on a line, the plan having n heads. A gradient has three numbers a head, and
// four for the box.
// Bytes and no enum: each letter is matched at three places at most, and an enum would want its own match from
// bytes and an Option.
fn last_place(letter: u8, n: usize) -> usize
    requires { n ≤ 10 }
{
    match letter {
        b'H' => 5 + n * 3,
        b'D' => 16,
        b'R' | b'U' => 3,
        b'G' => 6 + n * 3,
        b'F' => 2 + n * 3,
        b'O' => 1,
        // M; a line of any other letter differs whatever stands on it
        _ => 2,
    }
}

// The plan of the last line H, whether all calls take it, and its tables in the box and without it. A plan that is
// refused is held too: lines O and M are about its circles alone.
#[derive(Clone, Copy)]
pub struct Held {
    pub plan: Option<Plan>,
    pub taken: bool,
    pub clipped: Table,
    pub open: Table,
}

impl Held {
    // Before the first plan.
    pub(crate) fn none() -> Held {
        Held {
            plan: None,
            taken: false,
            clipped: Table::unwritten(0),
            open: Table::unwritten(0),
        }
    }

    // The plan of a line H. The tables are written over those held, since they are large; both, since what the plan
    // before left is no row of this one.
    pub(crate) fn hold(&mut self, words: &[u64; 40]) {
        let plan = plan_of(words);
        let clipped = self.clipped.write_clipped(plan);
        let open = self.open.write_open(plan);
        self.taken = clipped.is_ok() && open.is_ok();
        self.plan = Some(plan);
    }

    // Whether the sets of a line D are the present rows, and the others +0. With the box there is row 0 too, whatever
    // the box is.
    fn same_sets(&self, sets: &[u64], masks: usize) -> bool {
        (0..masks).all(|s| {
            let presence = listed(sets, s);
            self.clipped
                .same_absence(s, if s == 0 { 1 } else { presence })
                && self.open.same_absence(s, presence)
        })
    }

    // Whether the answers on a line are ours, the plan being held.
    pub(crate) fn agrees(&self, line: &Line) -> bool {
        self.plan.is_some_and(|plan| self.agrees_on(plan, line))
    }

    // The same, this plan being held.
    fn agrees_on(&self, plan: Plan, line: &Line) -> bool {
        let letter = line.letter();
        let words = &line.words;
        let masks = rows_needed(plan.n);
        let s = words[1] as usize;
        // Of more than ten heads there is no mask, and every line differs.
        if masks == 0 || line.last != last_place(letter, plan.n.min(10)) {
            return false;
        }
        match letter {
            b'H' => self.taken,
            b'D' => self.same_sets(&words[1..], masks),
            b'R' => s < masks && self.clipped.same_row(words, s),
            b'U' => s < masks && self.open.same_row(words, s),
            b'G' => self.clipped.same_slopes(words, s),
            b'F' => self.open.same_slopes(words, s),
            b'O' => same(compute_overlaps_circles(&plan_circles(plan)), words[1]),
            b'M' => same(compute_overlaps_of(s, &plan_circles(plan)), words[2]),
            _ => false,
        }
    }
}
