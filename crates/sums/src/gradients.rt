// The areas of the rows that a pass works out with their gradients, in lent slices. Rests on specs/Gradients.antt.
ghost use Rattle.std.specs.Prelude.{◌≡◌, ◌*◌, ◌^◌, ◌<◌, ◌≤◌, length};
ghost use Rattle.masks.specs.Mask.{Subset};
ghost use Rattle.masks.specs.Presence.{stands};
ghost use Rattle.intersections.specs.Heads.{first_ten};
ghost use Rattle.clip.specs.Gradient.{with_gradient};
ghost use Rattle.gaps.specs.Marks.{Few};
ghost use Rattle.sums.specs.Fast.{OfWanted};
ghost use Rattle.sums.specs.Gradients.{open_onto, clipped_onto, set_onto, row_with, row_anew, rows_held, rows_in};
ghost use Rattle.sums.specs.Gradients.{areas_to, rows_to};

use crate::fast::wanted_heads;
use crate::lookup::{Held, fill};
use crate::pass::Pass;
use crate::row::{BoxRowsWithGradients, Gradients};
use crate::rows::{PlainRows, row_count};
use crate::shares::{Parts, fill_parts};
use crate::terms::{TermsAndSlopes, WithSlopes};
use crate::walk::Listed;
use chords::fill::Chords;
use clip::gradient::area_and_gradient_from_clipped_arcs;
use gaps::marks::{few, heads_marked};
use gaps::numbers::HELD;
use geometry::bounds::Bounds;
use geometry::circle::Circle;
use intersections::members::first_ten;
use intersections::points::IntersectionPoint;
use outline::area::area_from_boundary_arcs;
use outline::gradient::accumulate_region_overlap_gradient;
use outline::outline::region_boundary_arcs;

impl<'a> Gradients for PlainRows<'a> {
    ghost Has = { λ r S. Unit {0} };

    ghost given = { λ r S g. set_onto r.bounds r.circles.now r.points.now S g };

    // from the arcs of its outline, made once
    fn add(&self, mask: usize, grad: &mut [f64], _list: &mut Listed) -> f64 {
        let arcs = region_boundary_arcs(mask, self.circles, self.points);
        if let Some(bounds) = self.bounds {
            return area_and_gradient_from_clipped_arcs(&arcs, self.circles, bounds, mask, grad);
        }
        accumulate_region_overlap_gradient(&arcs, self.circles, grad);
        area_from_boundary_arcs(&arcs, self.circles)
    }
}

// How many rows of so many numbers have a place.
fn rows_held(width: usize, places: usize) -> usize
    ensures { result ≡ rows_held width places }
{
    places.checked_div(width).unwrap_or(1024)
}

// How many rows of the first n_sets of ten circles have a place in both slices.
fn rows_in(n_sets: usize, width: usize, areas: &[f64], gradients: &[f64]) -> usize
    ensures value { result ≡ rows_in n_sets width areas.now gradients.now }
    ensures most { result ≤ 1024 }
{
    row_count(n_sets, areas.len()).min(rows_held(width, gradients.len()))
}

// Row `mask`: the area, and grad is written anew.
fn write_row<R: Gradients>(rows: &R, mask: usize, grad: &mut [f64], list: &mut Listed) -> f64
    requires { R.Has rows.now mask }
    ensures grad_len { length grad.new ≡ length grad.old }
    ensures row { with_gradient result grad.new ≡ row_anew (R.given rows.now) (length grad.old) mask }
{
    grad.fill(0.0);
    rows.add(mask, grad, list)
}

// The row of each set that is wanted, at the place of its mask. (`places` and `within`, here and below, as in `fast`.)
// The width and the two slices are handed on one by one: as a struct, each contract would have to say beside what they
// hold that they are the same slices as before.
fn write_rows<R: Gradients>(
    rows: &R,
    wanted: &[u8],
    width: usize,
    areas: &mut [f64],
    gradients: &mut [f64],
)
    requires places { (length wanted.now ≤ length areas.old) × (length wanted.now * width ≤ length gradients.old) }
    requires has { OfWanted wanted.now (R.Has rows.now) }
    ensures areas_after { areas.new
        ≡ areas_to (stands wanted.now) (row_anew (R.given rows.now) width) (length wanted.now) areas.old }
    ensures gradients_after { gradients.new
        ≡ rows_to (stands wanted.now) (row_anew (R.given rows.now) width) width (length wanted.now) gradients.old }
{
    let mut list = Listed::new();
    for (mask, byte) in wanted.iter().enumerate() {
        if *byte == 1 {
            let start = mask * width;
            let area = write_row(rows, mask, &mut gradients[start..start + width], &mut list);
            areas[mask] = area;
        }
    }
}

// The same without a box, where all these sets are of the heads of the pass. This and the next two stand beside those
// for areas alone: they hold other things of each arc, and write two slices.
fn write_open(pass: &Pass, wanted: &[u8], width: usize, areas: &mut [f64], gradients: &mut [f64])
    requires places { (length wanted.now ≤ length areas.old) × (length wanted.now * width ≤ length gradients.old) }
    requires within { OfWanted wanted.now (λ S. Subset S pass.now.needed) }
    ensures areas_after { areas.new ≡ areas_to (stands wanted.now)
        (row_anew (open_onto pass.now.circles.now pass.now.points.now) width) (length wanted.now) areas.old }
    ensures gradients_after { gradients.new ≡ rows_to (stands wanted.now)
        (row_anew (open_onto pass.now.circles.now pass.now.points.now) width) width (length wanted.now) gradients.old }
{
    let mut values = [TermsAndSlopes::default(); HELD];
    fill(pass, &WithSlopes, &mut values);
    let rows = Held {
        pass: *pass,
        of: WithSlopes,
        values: &values,
    };
    write_rows(&rows, wanted, width, areas, gradients);
}

// The same in the box.
#[tactic(auto, using(crate::proofs::Edging::pass_chorded))]
fn write_in_box(
    pass: &Pass,
    bounds: Bounds,
    wanted: &[u8],
    width: usize,
    areas: &mut [f64],
    gradients: &mut [f64],
)
    requires places { (length wanted.now ≤ length areas.old) × (length wanted.now * width ≤ length gradients.old) }
    requires within { OfWanted wanted.now (λ S. Subset S pass.now.needed) }
    ensures areas_after { areas.new ≡ areas_to (stands wanted.now)
        (row_anew (clipped_onto bounds pass.now.circles.now pass.now.points.now) width) (length wanted.now) areas.old }
    ensures gradients_after { gradients.new ≡ rows_to (stands wanted.now)
        (row_anew (clipped_onto bounds pass.now.circles.now pass.now.points.now) width) width
        (length wanted.now) gradients.old }
{
    let mut parts = Parts::new();
    fill_parts(pass, bounds, &mut parts);
    let chords = Chords::of(pass.circles, bounds, pass.needed);
    let rows = BoxRowsWithGradients {
        pass: *pass,
        bounds,
        parts: &parts,
        chords: &chords,
    };
    write_rows(&rows, wanted, width, areas, gradients);
}

// The rows of the sets that are wanted, where no head has more points than there are places.
fn write_fast(
    rows: &PlainRows<'_>,
    wanted: &[u8],
    width: usize,
    areas: &mut [f64],
    gradients: &mut [f64],
)
    requires few { Few rows.now.circles.now rows.now.points.now }
    requires places { (length wanted.now ≤ 2 ^ length rows.now.circles.now) ×
        ((length wanted.now ≤ length areas.old) × (length wanted.now * width ≤ length gradients.old)) }
    ensures areas_after { areas.new ≡ areas_to (stands wanted.now)
        (row_with rows.now.bounds rows.now.circles.now rows.now.points.now width) (length wanted.now) areas.old }
    ensures gradients_after { gradients.new ≡ rows_to (stands wanted.now)
        (row_with rows.now.bounds rows.now.circles.now rows.now.points.now width) width (length wanted.now)
        gradients.old }
{
    let needed = wanted_heads(wanted);
    let heads = heads_marked(rows.circles, rows.points, needed);
    let pass = Pass {
        circles: rows.circles,
        points: rows.points,
        heads: &heads,
        needed,
    };
    match rows.bounds {
        Some(bounds) => write_in_box(&pass, bounds, wanted, width, areas, gradients),
        None => write_open(&pass, wanted, width, areas, gradients),
    }
}

// The areas of the sets of the first ten circles whose byte in `wanted` is 1, in the box if there is one, each at the
// place of its mask, as they come with their gradients, of which each is written onto +0 in the `width` numbers of its
// row. Every other number stays.
pub fn write_gradients(
    bounds: Option<Bounds>,
    circles: &[Circle],
    points: &[IntersectionPoint],
    wanted: &[u8; 1024],
    width: usize,
    areas: &mut [f64],
    gradients: &mut [f64],
)
    ensures areas_after { areas.new ≡ areas_to (stands wanted.now)
        (row_with bounds (first_ten circles.now) points.now width)
        (rows_in (length (first_ten circles.now)) width areas.old gradients.old) areas.old }
    ensures gradients_after { gradients.new ≡ rows_to (stands wanted.now)
        (row_with bounds (first_ten circles.now) points.now width) width
        (rows_in (length (first_ten circles.now)) width areas.old gradients.old) gradients.old }
{
    let circles = first_ten(circles);
    let rows = PlainRows {
        bounds,
        circles,
        points,
    };
    let wanted = &wanted[..rows_in(circles.len(), width, areas, gradients)];
    if few(points, circles.len()) {
        write_fast(&rows, wanted, width, areas, gradients);
    } else {
        write_rows(&rows, wanted, width, areas, gradients);
    }
}
