// The parts in the box of each arc, as the shares that they add to a gradient, by the arc's number. Rests on
// specs/Slopes.antt.
ghost use Rattle.std.specs.Prelude.{◌≡◌, ℕ, None, ◌≤◌, length, get_or};
ghost use mathlib.Core.List.{foldl};
ghost use Rattle.lists.specs.Every.{Every};
ghost use Rattle.binary64.specs.Constants.{zero64};
ghost use Rattle.clip.specs.Gradient.{with_gradient};
ghost use Rattle.sums.specs.Walk.{Placed};
ghost use Rattle.sums.specs.Slopes.{add_parts_at, add_shares, PartsPut, PartsValued};

use crate::arcs::ArcOf;
use crate::lookup::standing_arcs;
use crate::pass::Pass;
use crate::row::BoxRowsWithGradients;
use arrayvec::ArrayVec;
use boundary::arcs::BoundaryArc;
use clip::slopes::{head_arc_integral_with_gradient, part_of};
use gaps::numbers::HELD;
use geometry::bounds::Bounds;
use geometry::circle::Circle;
use inside::breaks::breaks_between;
use inside::parts::summed;
use outline::place::Place;
use outline::terms::Triple;

// The shares of parts, one after another.
pub(crate) type Shares = ArrayVec<Triple, 640>;

// The parts of an arc in the box: its integral along them, and from where to where their shares are in the list.
#[derive(Clone, Copy)]
pub(crate) struct Along {
    pub(crate) from: usize,
    pub(crate) to: usize,
    pub(crate) sum: f64,
}

// Those of the arcs that are held.
// One list for the shares of all arcs: there is no heap, and 25 places an arc would be thirteen times as many.
#[derive(Drop)]
pub(crate) struct Parts {
    pub(crate) along: [Option<Along>; HELD],
    pub(crate) shares: Shares,
}

impl Parts {
    // Of no arc. Built where it is kept, and not copied there.
    #[inline(always)]
    pub(crate) fn new() -> Parts
        ensures { (p : ℕ) → get_or result.along p None ≡ None }
    {
        Parts {
            along: [None; HELD],
            shares: Shares::new(),
        }
    }

    // The parts of the arc of a number, if they are held.
    fn at(&self, place: usize) -> Option<Along>
        ensures { result ≡ get_or self.now.along place None }
    {
        *self.along.get(place)?
    }
}

// The parts of an arc in the box, put behind the others: at most 25. What it returns is its integral.
fn put_parts(arc: BoundaryArc, c: Circle, bounds: Bounds, shares: &mut Shares) -> f64
    requires room { length shares.old.items ≤ 615 }
    ensures { PartsPut bounds c arc shares.old.items result shares.new.items }
{
    let phi_a = arc.phi_start;
    let breaks = breaks_between(bounds, c, phi_a, phi_a + arc.delta_phi);
    let mut sum = 0.0;
    for ends in breaks.windows(2) {
        if summed(bounds, c, ends[0], ends[1]) {
            let part = part_of(c, ends[0], ends[1]);
            shares.push(part.share);
            sum += part.integral;
        }
    }
    sum
}

// The parts in the box of the arcs between neighbours and of the whole circles of the heads of `needed`, as far as
// there is room. Filled where it is kept: returned, 26 kB would be copied.
pub(crate) fn fill_parts(pass: &Pass, bounds: Bounds, parts: &mut Parts)
    requires { (p : ℕ) → get_or parts.old.along p None ≡ None }
    ensures { PartsValued bounds pass.now.circles.now pass.now.heads.now.items parts.new.shares.items
        parts.new.along }
{
    let places = standing_arcs(pass);
    for place in places.iter() {
        let from = parts.shares.len();
        if from > 615 {
            break;
        }
        let arc = ArcOf {
            pass: *pass,
            place: *place,
        };
        let sum = put_parts(arc.arc(), arc.circle(), bounds, &mut parts.shares);
        parts.along[*place] = Some(Along {
            from,
            to: parts.shares.len(),
            sum,
        });
    }
}

// Shares, added to a gradient.
fn add_shares(grad: &mut [f64], place: Place, shares: &[Triple])
    ensures { grad.new ≡ add_shares place.at shares.now grad.old }
{
    for share in shares {
        place.add_three(grad, *share);
    }
}

impl<'a> BoxRowsWithGradients<'a> {
    // The arc of a number, its integral added to a sum and its shares to a gradient: looked up, or worked out where
    // they are not held. (By number, here and below, as in `lookup`.)
    fn add_parts_at(&self, total: f64, grad: &mut [f64], place: usize) -> f64
        requires { Placed self.now.pass.needed self.now.pass.heads.now.items place }
        ensures { with_gradient result grad.new ≡ add_parts_at self.now.bounds self.now.pass.circles.now
            self.now.pass.heads.now.items (with_gradient total grad.old) place }
    {
        let arc = ArcOf {
            pass: self.pass,
            place,
        };
        if let Some(along) = self.parts.at(place) {
            let shares = &self.parts.shares[along.from..along.to];
            add_shares(grad, Place::after(arc.head()), shares);
            return total + along.sum;
        }
        total + head_arc_integral_with_gradient(arc.arc(), arc.circle(), self.bounds, grad)
    }

    // The arcs of a list, added to a sum that begins at +0 and to a gradient.
    pub(crate) fn add_parts(&self, grad: &mut [f64], arcs: &[usize]) -> f64
        requires { Every (Placed self.now.pass.needed self.now.pass.heads.now.items) arcs.now }
        ensures { with_gradient result grad.new
            ≡ foldl (add_parts_at self.now.bounds self.now.pass.circles.now self.now.pass.heads.now.items)
            (with_gradient zero64 grad.old) arcs.now }
    {
        let mut total = 0.0;
        for place in arcs {
            total = self.add_parts_at(total, grad, *place);
        }
        total
    }
}
