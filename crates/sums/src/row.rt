// The area of a set, and with its gradient, from what is worked out once a head: its arcs listed, what each adds
// looked up, and in the box the spans of the edges. Rests on specs/Gradients.antt.
ghost use Rattle.std.specs.Prelude.{◌≡◌, ℕ, List, Float};
ghost use Rattle.masks.specs.Mask.{Subset};
ghost use Rattle.intersections.specs.Members.{members_of};
ghost use Rattle.outline.specs.Area.{open_area};
ghost use Rattle.clip.specs.Area.{clipped_area};
ghost use Rattle.clip.specs.Gradient.{WithGradient, with_gradient};
ghost use Rattle.chords.specs.Chords.{Chorded};
ghost use Rattle.sums.specs.Slopes.{PartsValued};
ghost use Rattle.sums.specs.Gradients.{open_onto, clipped_onto};

use crate::edges::{add_edges, add_edges_with_gradient};
use crate::lookup::{Held, add_slopes};
use crate::pass::Pass;
use crate::shares::Parts;
use crate::terms::{Integrals, Terms, WithSlopes};
use crate::walk::{Listed, walk};
use chords::fill::Chords;
use clip::area::empty_box;
use clip::slopes::Sum;
use geometry::bounds::Bounds;
use intersections::members::first;
use outline::place::Place;

// How many arcs of a set a gradient is worked out from: the first 180, for which the list of arcs of `boundary` has
// room. The definition of the gradient cuts there, and no outline of ten heads with their own meeting points has more
// (`outline_few`). For areas alone nothing is cut.
const ARCS: usize = 180;

// The rows of a pass, each with its area.
pub(crate) trait Areas {
    // the rows that it has, of which each has this area
    ghost Has: { Self → ℕ → Type 0 };

    ghost given: { Self → ℕ → Float };

    // The area of a set. Its arcs may be listed in `list`.
    fn area(&self, mask: usize, list: &mut Listed) -> f64
        requires { Has self.now mask }
        ensures { result ≡ given self.now mask };
}

// The rows of a pass, each with its area and its gradient.
// A trait of its own, since in a box the area that comes with a gradient is summed in another order and has other
// bits.
pub(crate) trait Gradients {
    // as above; with the gradient, as it is added to one
    ghost Has: { Self → ℕ → Type 0 };

    ghost given: { Self → ℕ → List Float → WithGradient };

    // The area of a set, and its gradient, added to grad. Its arcs may be listed in `list`.
    fn add(&self, mask: usize, grad: &mut [f64], list: &mut Listed) -> f64
        requires { Has self.now mask }
        ensures { with_gradient result grad.new ≡ given self.now mask grad.old };
}

// The rows in the box, from the integral of each arc and the chords of the heads.
#[derive(Clone, Copy)]
pub(crate) struct BoxRows<'a> {
    pub(crate) integrals: &'a Held<'a, Integrals>,
    pub(crate) chords: &'a Chords,
    ghost chorded: { Chorded integrals.now.of.bounds integrals.now.pass.circles.now integrals.now.pass.needed
        chords.now },
}

// With gradients, from the shares of the arcs' parts.
#[derive(Clone, Copy)]
pub(crate) struct BoxRowsWithGradients<'a> {
    pub(crate) pass: Pass<'a>,
    pub(crate) bounds: Bounds,
    pub(crate) parts: &'a Parts,
    pub(crate) chords: &'a Chords,
    ghost valued: { PartsValued bounds pass.circles.now pass.heads.now.items parts.now.shares.items parts.now.along },
    ghost chorded: { Chorded bounds pass.circles.now pass.needed chords.now },
}

// The rows without a box, from the terms of each arc.
impl<'a> Areas for Held<'a, Terms> {
    ghost Has = { λ r S. Subset S r.pass.needed };

    ghost given = { λ r S. open_area (members_of r.pass.circles.now r.pass.points.now S) };

    fn area(&self, mask: usize, list: &mut Listed) -> f64 {
        walk(&self.pass, mask, list);
        0.5 * self.sum(list)
    }
}

// The rows in the box: nothing of an empty one.
impl<'a> Areas for BoxRows<'a> {
    ghost Has = { λ r S. Subset S r.integrals.now.pass.needed };

    ghost given = { λ r S. clipped_area r.integrals.now.of.bounds
        (members_of r.integrals.now.pass.circles.now r.integrals.now.pass.points.now S) };

    fn area(&self, mask: usize, list: &mut Listed) -> f64 {
        let bounds = self.integrals.of.bounds;
        if empty_box(bounds) {
            return 0.0;
        }
        walk(&self.integrals.pass, mask, list);
        0.5 * add_edges(self.integrals.sum(list), bounds, mask, self.chords)
    }
}

// With gradients, from the terms and the slopes of each arc.
impl<'a> Gradients for Held<'a, WithSlopes> {
    ghost Has = { λ r S. Subset S r.pass.needed };

    ghost given = { λ r S g. open_onto r.pass.circles.now r.pass.points.now S g };

    fn add(&self, mask: usize, grad: &mut [f64], list: &mut Listed) -> f64 {
        walk(&self.pass, mask, list);
        let arcs = first::<ARCS, usize>(list);
        add_slopes(grad, arcs, self);
        0.5 * self.sum(arcs)
    }
}

// With gradients in the box, from the parts of each arc: nothing of an empty one.
impl<'a> Gradients for BoxRowsWithGradients<'a> {
    ghost Has = { λ r S. Subset S r.pass.needed };

    ghost given = { λ r S g. clipped_onto r.bounds r.pass.circles.now r.pass.points.now S g };

    fn add(&self, mask: usize, grad: &mut [f64], list: &mut Listed) -> f64 {
        if empty_box(self.bounds) {
            return 0.0;
        }
        walk(&self.pass, mask, list);
        let total = self.add_parts(grad, first::<ARCS, usize>(list));
        let mut sum = Sum { total, grad };
        let place = Place::after(self.pass.circles.len());
        add_edges_with_gradient(&mut sum, self.bounds, mask, place, self.chords);
        0.5 * sum.total
    }
}
