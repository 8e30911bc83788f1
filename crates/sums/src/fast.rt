// All wanted rows of a pass from what is worked out once a head. Rests on specs/Fast.antt.
ghost use Rattle.std.specs.Prelude.{◌≡◌, ℕ, ◌^◌, ◌<◌, ◌≤◌, length};
ghost use Rattle.lists.specs.Written.{written};
ghost use Rattle.masks.specs.Mask.{Subset};
ghost use Rattle.masks.specs.Presence.{stands};
ghost use Rattle.intersections.specs.Members.{members_of};
ghost use Rattle.outline.specs.Area.{open_area};
ghost use Rattle.clip.specs.Area.{clipped_area};
ghost use Rattle.gaps.specs.Marks.{Few};
ghost use Rattle.sums.specs.Rows.{area_of, number_at};
ghost use Rattle.sums.specs.Fast.{OfWanted};

use crate::lookup::{Held, fill};
use crate::pass::Pass;
use crate::row::{Areas, BoxRows};
use crate::rows::PlainRows;
use crate::terms::{Integrals, Terms};
use crate::walk::Listed;
use chords::fill::Chords;
use gaps::marks::heads_marked;
use gaps::numbers::HELD;
use geometry::bounds::Bounds;
use outline::terms::Triple;

// The heads of the sets that are wanted: those whose byte is 1. Bytes and no bools: `diagram` hands its sets here,
// which are bytes.
pub(crate) fn wanted_heads(wanted: &[u8]) -> usize
    ensures of_wanted { OfWanted wanted.now (λ S. Subset S result) }
    ensures by_index { (n : ℕ) → length wanted.now ≤ 2 ^ n → result < 2 ^ n }
{
    let mut heads: usize = 0;
    for (mask, byte) in wanted.iter().enumerate() {
        if *byte == 1 {
            heads |= mask;
        }
    }
    heads
}

// The area of each set that is wanted, at the place of its mask. That there is a place for each row is asked here and
// below. With a struct that says so each contract would say beside what the slice holds that it is the same slice as
// before.
pub(crate) fn write_rows<R: Areas>(rows: &R, wanted: &[u8], areas: &mut [f64])
    requires places { length wanted.now ≤ length areas.old }
    requires has { OfWanted wanted.now (R.Has rows.now) }
    ensures { areas.new ≡ written (number_at (stands wanted.now) (R.given rows.now) areas.old) (length wanted.now)
        areas.old }
{
    let mut list = Listed::new();
    for (mask, byte) in wanted.iter().enumerate() {
        if *byte == 1 {
            areas[mask] = rows.area(mask, &mut list);
        }
    }
}

// The same without a box, where all these sets are of the heads of the pass. Asked here and not kept in `Pass`: each
// arc carries its pass, and asks for no wanted set. Of arcs that are none +0 is held and no Option: only the numbers
// of arcs of the pass are asked for, and those below HELD are all held.
fn write_open(pass: &Pass, wanted: &[u8], areas: &mut [f64])
    requires places { length wanted.now ≤ length areas.old }
    requires within { OfWanted wanted.now (λ S. Subset S pass.now.needed) }
    ensures { areas.new ≡ written (number_at (stands wanted.now)
        (λ S. open_area (members_of pass.now.circles.now pass.now.points.now S)) areas.old)
        (length wanted.now) areas.old }
{
    let mut terms = [Triple::ZERO; HELD];
    fill(pass, &Terms, &mut terms);
    let rows = Held {
        pass: *pass,
        of: Terms,
        values: &terms,
    };
    write_rows(&rows, wanted, areas);
}

// The same in the box.
#[tactic(auto, using(crate::proofs::Edging::pass_chorded))]
fn write_in_box(pass: &Pass, bounds: Bounds, wanted: &[u8], areas: &mut [f64])
    requires places { length wanted.now ≤ length areas.old }
    requires within { OfWanted wanted.now (λ S. Subset S pass.now.needed) }
    ensures { areas.new ≡ written (number_at (stands wanted.now)
        (λ S. clipped_area bounds (members_of pass.now.circles.now pass.now.points.now S)) areas.old)
        (length wanted.now) areas.old }
{
    let of = Integrals { bounds };
    let mut values = [0.0; HELD];
    fill(pass, &of, &mut values);
    let integrals = Held {
        pass: *pass,
        of,
        values: &values,
    };
    let chords = Chords::of(pass.circles, bounds, pass.needed);
    let rows = BoxRows {
        integrals: &integrals,
        chords: &chords,
    };
    write_rows(&rows, wanted, areas);
}

// The areas of the sets that are wanted, where no head has more points than there are places.
// The pass is put together here and in `gradients`: it borrows its heads, so no function can make both and give it
// back.
pub(crate) fn write_fast(rows: &PlainRows<'_>, wanted: &[u8], areas: &mut [f64])
    requires few { Few rows.now.circles.now rows.now.points.now }
    requires places { (length wanted.now ≤ 2 ^ length rows.now.circles.now) × (length wanted.now ≤ length areas.old) }
    ensures { areas.new ≡ written (number_at (stands wanted.now)
        (λ S. area_of rows.now.bounds (members_of rows.now.circles.now rows.now.points.now S)) areas.old)
        (length wanted.now) areas.old }
{
    let needed = wanted_heads(wanted);
    let heads = heads_marked(rows.circles, rows.points, needed);
    let pass = Pass {
        circles: rows.circles,
        points: rows.points,
        heads: &heads,
        needed,
    };
    match rows.bounds {
        Some(bounds) => write_in_box(&pass, bounds, wanted, areas),
        None => write_open(&pass, wanted, areas),
    }
}
