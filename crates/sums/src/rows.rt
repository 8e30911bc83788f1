// The areas of the rows that a pass works out, in a lent slice. Rests on specs/Rows.antt.
ghost use Rattle.std.specs.Prelude.{◌≡◌, ◌≤◌, min, length};
ghost use Rattle.masks.specs.Presence.{stands};
ghost use Rattle.intersections.specs.Heads.{first_ten};
ghost use Rattle.intersections.specs.Members.{members_of};
ghost use Rattle.sums.specs.Rows.{area_of, rows_of, areas_written};

use crate::fast::{write_fast, write_rows};
use crate::row::Areas;
use crate::walk::Listed;
use clip::area::clipped_region_area;
use gaps::marks::few;
use geometry::bounds::Bounds;
use geometry::circle::Circle;
use intersections::members::first_ten;
use intersections::points::IntersectionPoint;
use outline::area::region_area;

// The rows of a pass, each worked out by itself. Its circles are what `first_ten` leaves of a list. Not `Ready` of
// `table` or `Drawing` of `diagram`: their circles may be more, or are held and not lent, and they stand above this
// crate.
#[derive(Clone, Copy)]
pub(crate) struct PlainRows<'a> {
    pub(crate) bounds: Option<Bounds>,
    pub(crate) circles: &'a [Circle],
    pub(crate) points: &'a [IntersectionPoint],
    ghost ten: { length circles.now ≤ 10 },
}

impl<'a> Areas for PlainRows<'a> {
    ghost Has = { λ r S. Unit {0} };

    ghost given = { λ r S. area_of r.bounds (members_of r.circles.now r.points.now S) };

    // The box is asked for at each row: this form is rare, and two more structs would be longer.
    fn area(&self, mask: usize, _list: &mut Listed) -> f64 {
        match self.bounds {
            Some(bounds) => clipped_region_area(mask, self.circles, self.points, bounds),
            None => region_area(mask, self.circles, self.points),
        }
    }
}

// How many rows of the first n_sets of ten circles a slice of so many numbers has a place for. Not `rows_needed`: this
// crate knows no plan, and a slice may be shorter.
pub(crate) fn row_count(n_sets: usize, places: usize) -> usize
    ensures value { result ≡ min (rows_of n_sets) places }
    ensures most { result ≤ 1024 }
{
    (1usize << n_sets.min(10)).min(places)
}

// The areas of the sets of the first ten circles whose byte in `wanted` is 1, in the box if there is one, each at the
// place of its mask. Every other number stays. Box, circles and points one by one, here and with gradients: the callers
// hold them in structs of their own.
pub fn write_areas(
    bounds: Option<Bounds>,
    circles: &[Circle],
    points: &[IntersectionPoint],
    wanted: &[u8; 1024],
    areas: &mut [f64],
)
    ensures { areas.new
        ≡ areas_written (length (first_ten circles.now)) (stands wanted.now)
        (λ S. area_of bounds (members_of (first_ten circles.now) points.now S)) areas.old }
{
    let circles = first_ten(circles);
    let rows = PlainRows {
        bounds,
        circles,
        points,
    };
    let wanted = &wanted[..row_count(circles.len(), areas.len())];
    if few(points, circles.len()) {
        write_fast(&rows, wanted, areas);
    } else {
        write_rows(&rows, wanted, areas);
    }
}
