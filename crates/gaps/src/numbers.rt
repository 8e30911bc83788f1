// Which arc a number stands for, and the number of the arc that a gap between two angles of a head is in a set.
// Rests on specs/Gaps.antt and specs/Numbers.antt.
ghost use Rattle.std.specs.Prelude.{◌≡◌, ◌+◌, ◌*◌, ◌%◌, ◌^◌};
ghost use Rattle.intersections.specs.Heads.{first_ten};
ghost use Rattle.gaps.specs.Numbers.{Names, number_of, first_places, gap_number};

use crate::head::HeadOf;
use crate::places::next;
use boundary::sort::Mark;
use geometry::circle::Circle;
use intersections::members::{first, first_ten};
use masks::is_subset;

// How many marks a head has room for, as `Marks` of `boundary` has.
pub const MARKS: usize = 32;

// A number below this is of the gap from a mark to the next, by the mark's place among those of ten heads.
pub const GAPS: usize = 10 * MARKS;

// A number from GAPS on and below this is of a head's whole circle, and one from this on of any other gap. What an arc
// adds to a sum is held for the numbers below this.
pub const HELD: usize = GAPS + 10;

// An arc by its head and the places of its ends among the head's marks.
#[derive(Clone, Copy)]
pub enum ArcNumber {
    // the gap from a mark to the next
    Next { head: usize, from: usize },
    // the whole circle
    Whole { head: usize },
    // the gap from a mark to one that is not the next
    Far { head: usize, from: usize, to: usize },
}

impl ArcNumber {
    // The arc of a number.
    #[inline(always)]
    pub fn of(place: usize) -> ArcNumber
        ensures { Names place result }
    {
        if place < GAPS {
            return ArcNumber::Next {
                head: place / MARKS,
                from: place % MARKS,
            };
        }
        if place < HELD {
            return ArcNumber::Whole { head: place - GAPS };
        }
        let (from, to) = ((place - HELD) / GAPS, (place - HELD) % GAPS);
        ArcNumber::Far {
            head: from / MARKS,
            from: from % MARKS,
            to: to % MARKS,
        }
    }

    // The number of an arc. By wrapping operations: that of a head or a mark far past the last, which have no arc, may
    // have more than 64 bits.
    #[inline(always)]
    pub fn number(self) -> usize
        ensures { result ≡ number_of self % 2 ^ 64 }
    {
        match self {
            ArcNumber::Next { head, from } => mark_place(head, from),
            ArcNumber::Whole { head } => GAPS.wrapping_add(head),
            ArcNumber::Far { head, from, to } => mark_place(head, from)
                .wrapping_mul(GAPS)
                .wrapping_add(mark_place(head, to))
                .wrapping_add(HELD),
        }
    }
}

// The place of a mark among those of ten heads.
fn mark_place(head: usize, mark: usize) -> usize
    ensures { result ≡ (head * 32 + mark) % 2 ^ 64 }
{
    head.wrapping_mul(MARKS).wrapping_add(mark)
}

// The number of the arc from the a-th mark of head j to the b-th, if that gap is an arc of the set: between neighbours
// by who lets the head have it. No arc from or to a place past the end of the marks, of which the first 32 are read,
// and none of a head past the last circle, of which the first ten are. n says how many angles there are round the head,
// and so which place is next. It is not the slice's length: as before, a whole array of places may be handed over, of
// which the first n stand for angles. Circles and j apart: `HeadOf` asks that j is one of them. One number says which
// arc it is, neighbours or others: what is held of the arcs stands in arrays by the numbers below HELD, and a list of
// arcs is a list of numbers. Inlined: called with so many parameters, it took a pass in the box 4 to 9 % more.
#[inline(always)]
#[tactic(auto, using(crate::proofs::Numbering::numbering), unfolding(crate::specs::Numbers::gap_number))]
pub fn gap_number(
    mask: usize,
    circles: &[Circle],
    j: usize,
    marks: &[Mark],
    n: usize,
    a: usize,
    b: usize,
) -> Option<usize>
    ensures { result ≡ gap_number (first_ten circles.now) (first_places marks.now) n mask j a b }
{
    let circles = first_ten(circles);
    if j >= circles.len() {
        return None;
    }
    let marks = first::<MARKS, Mark>(marks);
    let from = marks.get(a)?;
    let to = marks.get(b)?;
    if b == next(a, n) {
        let arc = ArcNumber::Next { head: j, from: a };
        return is_subset(mask, from.lets).then_some(arc.number());
    }
    let arc = ArcNumber::Far {
        head: j,
        from: a,
        to: b,
    };
    HeadOf { circles, j }
        .is_arc(mask, from.phi, to.phi)
        .then_some(arc.number())
}
