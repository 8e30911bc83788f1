// The angles of the points counted for a set at one of its heads. Rests on specs/Outline.antt and the members of
// `intersections`.
ghost use Rattle.std.specs.Prelude.{◌≡◌, map};
ghost use Rattle.intersections.specs.Members.{points_for};
ghost use Rattle.boundary.specs.Outline.{angle_about};
ghost use Rattle.boundary.specs.Sort.{sorted};

use crate::angles::angle_about;
use crate::sort::{Angles, insert_angle};
use intersections::members::{HeadCircle, counted_for};
use intersections::points::IntersectionPoint;

// The angles about a member's centre of the points counted for the set there, sorted.
pub fn angles_for(mask: usize, member: HeadCircle, points: &[IntersectionPoint]) -> Angles
    ensures { result.items ≡ sorted (map (angle_about member.circle) (points_for points.now mask member.head)) }
{
    let mut list = Angles::new();
    for q in points {
        if counted_for(mask, member.head, *q) {
            insert_angle(&mut list, angle_about(member.circle, q.point));
        }
    }
    list
}
