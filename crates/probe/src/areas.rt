// Exports of crates `sets`, `exclusive` and `overlaps`: the sets of the first n_sets circles, exclusive areas of lent
// tables, and the area that circles water together. One for each function compared, with C's numbers (lib.rt).
ghost use Rattle.std.specs.Prelude.{◌≡◌};
ghost use Rattle.sets.specs.Regions.{set_bytes};
ghost use Rattle.exclusive.specs.Exclusive.{exclusive_answer, exclusive_table};
ghost use Rattle.overlaps.specs.Overlap.{overlap, overlap_of};
ghost use Rattle.probe.specs.Handed as spec;

use crate::given::{Circles, circles_of};
use crate::outlines::points_of;
use exclusive::areas::{rows_number, to_exclusive_areas};
use overlaps::overlaps::{compute_overlaps_circles, compute_overlaps_of};
use sets::discover::discover_regions;

// The byte of every mask.
#[repr(C)]
#[derive(Clone, Copy)]
pub struct Sets {
    pub bytes: [u8; 1024],
}

// Which masks are among the sets.
#[unsafe(no_mangle)]
pub extern "C" fn probe_sets(circles: Circles, n_sets: usize) -> Sets
    ensures { result.bytes ≡ set_bytes (spec.circles circles.numbers n_sets) (spec.points circles.numbers n_sets) }
{
    let bytes = discover_regions(&circles_of(circles, n_sets), &points_of(circles, n_sets));
    Sets { bytes }
}

// Exclusive areas from presence bytes and areas.
#[unsafe(no_mangle)]
pub extern "C" fn probe_to_exclusive_areas(
    present: &[u8],
    areas: &[f64],
    exclusives: &mut [f64],
    n: usize,
) -> u8
    ensures value { result ≡ exclusive_answer n present.now areas.now exclusives.old }
    ensures exclusives_after { exclusives.new ≡ exclusive_table n present.now areas.now exclusives.old }
{
    rows_number(to_exclusive_areas(present, areas, exclusives, n))
}

// The area that all of them water together.
#[unsafe(no_mangle)]
pub extern "C" fn probe_compute_overlaps_circles(circles: Circles, n_sets: usize) -> f64
    ensures { result ≡ overlap (spec.circles circles.numbers n_sets) }
{
    compute_overlaps_circles(&circles_of(circles, n_sets))
}

// The same of the circles of a mask alone.
#[unsafe(no_mangle)]
pub extern "C" fn probe_compute_overlaps_of(circles: Circles, n_sets: usize, mask: usize) -> f64
    ensures { result ≡ overlap_of (spec.circles circles.numbers n_sets) mask }
{
    compute_overlaps_of(mask, &circles_of(circles, n_sets))
}
