// The area that circles water together. Rests on specs/Overlap.antt.
ghost use Rattle.std.specs.Prelude.{◌≡◌, ◌≤◌, length};
ghost use Rattle.intersections.specs.Heads.{first_ten};
ghost use Rattle.overlaps.specs.Overlap.{together, not_closed, overlap, overlap_of};

use geometry::circle::{Circle, Circles};
use intersections::collect::collect_intersections;
use intersections::members::{circles_of, first_ten, members_of};
use outline::area::region_area;

// The circles that are not closed, in order. Pushed one by one: `collect` would answer a `Result`, whose error cannot
// come here.
fn not_closed(circles: &[Circle]) -> Circles
    requires { length circles.now ≤ 10 }
    ensures { result.items ≡ not_closed circles.now }
{
    let mut kept = Circles::new();
    for &circle in circles {
        if !circle.is_closed() {
            kept.push(circle);
        }
    }
    kept
}

// The area that circles water together, as they are.
fn together(circles: &[Circle]) -> f64
    requires { length circles.now ≤ 10 }
    ensures { result ≡ together circles.now }
{
    match circles {
        [one] => one.area(),
        [one, other] => one.intersection_area(*other),
        heads => {
            let all = (1 << heads.len()) - 1;
            region_area(all, heads, &collect_intersections(heads))
        }
    }
}

// The area that circles water together: a closed one is as if it were not there. Of more than ten the first ten are
// read.
pub fn compute_overlaps_circles(circles: &[Circle]) -> f64
    ensures { result ≡ overlap (first_ten circles.now) }
{
    together(&not_closed(first_ten(circles)))
}

// The area that the heads of a mask among these water together: what the call above gives for their circles alone. A
// head from number ten on is none.
#[tactic(auto, using(crate::specs::Overlap::chosen_are, intersections::proofs::Few::few_read))]
pub fn compute_overlaps_of(mask: usize, circles: &[Circle]) -> f64
    ensures { result ≡ overlap_of (first_ten circles.now) mask }
{
    compute_overlaps_circles(&circles_of(&members_of(mask, circles)))
}
