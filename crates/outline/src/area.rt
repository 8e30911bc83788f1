// The area that arcs enclose: of a list of arcs, and of a set. Rests on specs/Area.antt.
ghost use Rattle.std.specs.Prelude.{◌≡◌};
ghost use Rattle.outline.specs.Area.{arc_terms, add_arc, area_of, open_area};
ghost use Rattle.intersections.specs.Members.{members_of};
ghost use Rattle.intersections.specs.Heads.{first_ten};

use crate::terms::{add_three, terms_of};
use boundary::arcs::BoundaryArc;
use boundary::walk::outline_of;
use geometry::circle::Circle;
use intersections::members::{circles_of, members_of};
use intersections::points::IntersectionPoint;

// The three terms of an arc of a circle, added to a sum.
#[tactic(auto, using(crate::specs::Terms::arc_terms_are), unfolding(crate::specs::Terms::terms_of))]
fn arc_terms(total: f64, c: Circle, arc: BoundaryArc) -> f64
    ensures { result ≡ arc_terms total c arc }
{
    add_three(total, terms_of(c, arc))
}

// An arc added to a sum; one of no circle adds nothing.
#[tactic(auto, unfolding(crate::specs::Area::add_arc))]
fn add_arc(total: f64, circles: &[Circle], arc: BoundaryArc) -> f64
    ensures { result ≡ add_arc circles.now total arc }
{
    match circles.get(arc.circle) {
        Some(circle) => arc_terms(total, *circle, arc),
        None => total,
    }
}

// The area that a list of arcs encloses.
#[tactic(auto, unfolding(crate::specs::Area::area_of))]
pub fn area_from_boundary_arcs(arcs: &[BoundaryArc], circles: &[Circle]) -> f64
    ensures { result ≡ area_of circles.now arcs.now }
{
    let sum = arcs
        .iter()
        .fold(0.0, |total, arc| add_arc(total, circles, *arc));
    0.5 * sum
}

// The area that the heads of a set water together; of the circles the first ten are read. Set, circles and points one
// by one, here and in `clip`, as the Rust's functions have them.
#[tactic(auto, using(crate::proofs::Walking::open_area_is, intersections::proofs::Few::few_read))]
pub fn region_area(mask: usize, circles: &[Circle], points: &[IntersectionPoint]) -> f64
    ensures { result ≡ open_area (members_of (first_ten circles.now) points.now mask) }
{
    let set = members_of(mask, circles);
    let arcs = outline_of(mask, &set, points);
    area_from_boundary_arcs(&arcs, &circles_of(&set))
}
