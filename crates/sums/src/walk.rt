// The arcs of a set's outline as a list of their numbers, from what is held of its heads. Rests on specs/Walk.antt.
ghost use Rattle.std.specs.Prelude.{◌≡◌, true, ◌+◌, ◌*◌, ◌<◌, ◌≤◌, length};
ghost use Rattle.std.specs.List.{position};
ghost use Rattle.masks.specs.Mask.{in_set, Subset};
ghost use Rattle.gaps.specs.Marks.{adopted_by, phi_at, angles_in};
ghost use Rattle.sums.specs.Walk.{marks_of, gap_in, head_in, outline_arcs, Added, Listing};

use crate::pass::Pass;
use arrayvec::ArrayVec;
use boundary::sort::Mark;
use gaps::numbers::{ArcNumber, GAPS, gap_number};
use masks::is_subset;

// The numbers of the arcs of a set. A plain list, lent from row to row: a struct that keeps that all are of one pass
// would hold the pass, which not every kind of rows has.
pub(crate) type Listed = ArrayVec<usize, GAPS>;

// The first mark whose point the set adopts.
#[tactic(auto, unfolding(gaps::specs::Marks::adopted_by))]
fn first_in(mask: usize, marks: &[Mark]) -> Option<usize>
    ensures { result ≡ position (adopted_by mask) marks.now }
{
    marks.iter().position(|mark| is_subset(mask, mark.adopters))
}

// A head of a set, round which the walk goes.
#[derive(Clone, Copy)]
struct HeadOfSet<'a> {
    pass: Pass<'a>,
    mask: usize,
    j: usize,
    ghost within: { Subset mask pass.needed },
    ghost head: { j < length pass.circles.now },
    ghost has: { in_set mask j ≡ true },
}

impl<'a> HeadOfSet<'a> {
    // The gap from its a-th mark to its b-th, listed if it is an arc of the set. All marks stand for angles, so n is
    // their number.
    #[inline(always)]
    fn list_gap(&self, a: usize, b: usize, list: &mut Listed)
        requires marks { let n = length (marks_of self.now.pass.heads.now.items self.now.j) in (a < n) × (b < n) }
        requires room { length list.old.items < 320 }
        ensures count { length list.new.items ≤ length list.old.items + 1 }
        ensures added { let p = self.now.pass in let marks = marks_of p.heads.now.items self.now.j in
            Added p (gap_in p.circles.now self.now.mask self.now.j (phi_at marks a) (phi_at marks b))
            list.old.items list.new.items }
    {
        let marks = self.pass.head(self.j).marks.as_slice();
        if let Some(place) = gap_number(
            self.mask,
            self.pass.circles,
            self.j,
            marks,
            marks.len(),
            a,
            b,
        ) {
            list.push(place);
        }
    }

    // Its arcs, listed: gap by gap round the circle, or the whole of it where no point is counted for the set there.
    fn list(&self, list: &mut Listed)
        requires room { length list.old.items ≤ self.now.j * 32 }
        ensures count { length list.new.items ≤ self.now.j * 32 + 32 }
        ensures added { let p = self.now.pass in
            Added p (head_in p.circles.now self.now.mask self.now.j
            (angles_in self.now.mask (marks_of p.heads.now.items self.now.j))) list.old.items list.new.items }
    {
        let mask = self.mask;
        let head = self.pass.head(self.j);
        let marks = head.marks.as_slice();
        let Some(first) = first_in(mask, marks) else {
            if is_subset(mask, head.owners) {
                list.push(ArcNumber::Whole { head: self.j }.number());
            }
            return;
        };
        let mut last = first;
        // by index, since the number of a gap is made of the places of its ends: plainer than enumerate and skip
        for b in first + 1..marks.len() {
            if is_subset(mask, marks[b].adopters) {
                self.list_gap(last, b, list);
                last = b;
            }
        }
        self.list_gap(last, first, list);
    }
}

// The arcs of a set's outline, listed. Of a single: its full circle, whatever meets it.
#[tactic(auto, using(crate::proofs::Walking::heads_none))]
pub(crate) fn walk(pass: &Pass, mask: usize, list: &mut Listed)
    requires { Subset mask pass.now.needed }
    ensures { let cs = pass.now.circles.now in
        Listing cs pass.now.needed pass.now.heads.now.items (outline_arcs cs pass.now.points.now mask) list.new.items }
{
    list.clear();
    if mask.count_ones() == 1 {
        let head = mask.trailing_zeros() as usize;
        list.push(ArcNumber::Whole { head }.number());
        return;
    }
    for j in 0..pass.circles.len() {
        if mask >> j & 1 == 1 {
            let head = HeadOfSet {
                pass: *pass,
                mask,
                j,
            };
            head.list(list);
        }
    }
}
