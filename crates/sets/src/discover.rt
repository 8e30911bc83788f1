// Which masks are among the sets of circles (the Rust's discover_regions), as presence bytes: the byte of mask S stands
// at index S. Rests on specs/Sets.antt and specs/Regions.antt.
ghost use Rattle.std.specs.Prelude.{◌≡◌};
ghost use Rattle.intersections.specs.Heads.{first_ten};
ghost use Rattle.sets.specs.Regions.{set_bytes};

use crate::heads::Heads;
use crate::levels::Levels;
use geometry::circle::Circle;
use intersections::members::first_ten;
use intersections::points::IntersectionPoint;

// The sets of the first ten circles, of which these are the meeting points.
pub fn discover_regions(circles: &[Circle], points: &[IntersectionPoint]) -> [u8; 1024]
    ensures { result ≡ set_bytes (first_ten circles.now) points.now }
{
    let circles = first_ten(circles);
    // They are ten at most. `min` says so to the compiler: without it most plans took 1 to 6 % more here, dense ones
    // less.
    let heads = Heads {
        n: circles.len().min(10),
    };
    // Bytes and not bools: they are the presence bytes that the table and C have.
    let mut found = [0u8; 1024];
    let meeting = heads.add_points(&mut found, points);
    let containing = heads.containing_heads(circles);
    heads.add_pairs(&mut found, &meeting, &containing);
    heads.add_singles(&mut found, circles);
    let twice_contained = heads.twice_contained(&containing);
    // Then no mask joins a level.
    if twice_contained == 0 {
        return found;
    }
    let overlapping = heads.overlapping_heads(&found);
    let levels = Levels {
        heads,
        overlapping: &overlapping,
        containing: &containing,
        twice_contained,
    };
    levels.add(&mut found);
    found
}
