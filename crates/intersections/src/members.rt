// The heads of a set, in order, and which points are counted for it there. Rests on specs/Members.antt.
ghost use Rattle.std.specs.Prelude.{◌≡◌, ◌≤◌, length, take};
ghost use Rattle.std.specs.Int.Count.{ones};
ghost use Rattle.intersections.specs.Members.{counted_for};
ghost use Rattle.intersections.specs.Heads.{first_ten, heads_with, circle_list};

use crate::points::IntersectionPoint;
use bounded_list::BoundedList;
use geometry::circle::{Circle, Circles};
use masks::is_subset;

// A head of a set: its number and its circle.
#[derive(Clone, Copy, PartialEq, Debug, Default)]
pub struct HeadCircle {
    pub head: usize,
    pub circle: Circle,
}

// The heads of a set, in order.
pub type Members = BoundedList<HeadCircle, 10>;

// The first N of a list of any length, or all of them: what is read where there is room for N.
pub fn first<const N: usize, T>(list: &[T]) -> &[T]
    ensures value { result.now ≡ take N list.now }
    ensures most { length result.now ≤ N }
{
    &list[..list.len().min(N)]
}

// What is read of a list of circles or heads of any length: no plan has more than ten. A slice, and no struct that
// holds the bound: it would be taken apart at each index, and made anew for the slices of `Parents` and the like.
pub fn first_ten<T>(list: &[T]) -> &[T]
    ensures value { result.now ≡ first_ten list.now }
    ensures most { length result.now ≤ 10 }
{
    first::<10, T>(list)
}

// The heads of a set among these circles, one after another. Pushed one by one: `collect` would answer a `Result`,
// whose error cannot come here.
fn gathered_members(mask: usize, circles: &[Circle]) -> Members
    requires { length circles.now ≤ 10 }
    ensures { result.items ≡ heads_with circles.now mask }
{
    let mut members = Members::new();
    for (head, &circle) in circles.iter().enumerate() {
        if mask >> head & 1 == 1 {
            members.push(HeadCircle { head, circle });
        }
    }
    members
}

// The head of a set of one, if it is among these circles: its trailing zeros say which.
// Apart from any other set: the trailing zeros of a single are a form that docs/DECISIONS.md names.
fn single_member(mask: usize, circles: &[Circle]) -> Members
    requires { ones mask ≡ 1 }
    ensures { result.items ≡ heads_with circles.now mask }
{
    let mut members = Members::new();
    let head = mask.trailing_zeros() as usize;
    if let Some(&circle) = circles.get(head) {
        members.push(HeadCircle { head, circle });
    }
    members
}

// The heads of a set among these circles. Of more than ten the first ten are read.
pub fn members_of(mask: usize, circles: &[Circle]) -> Members
    ensures { result.items ≡ heads_with (first_ten circles.now) mask }
{
    let circles = first_ten(circles);
    if mask.count_ones() == 1 {
        single_member(mask, circles)
    } else {
        gathered_members(mask, circles)
    }
}

// The circles of a set's heads, in order. Pushed one by one, as above.
pub fn circles_of(set: &Members) -> Circles
    ensures { result.items ≡ circle_list set.now.items }
{
    let mut circles = Circles::new();
    for member in set.iter() {
        circles.push(member.circle);
    }
    circles
}

// Whether a meeting point is counted for a set at head j.
#[tactic(auto, unfolding(crate::specs::Members::counted_for))]
pub fn counted_for(mask: usize, j: usize, q: IntersectionPoint) -> bool
    ensures { result ≡ counted_for mask j q }
{
    q.has_parent(j) && is_subset(mask, q.adopters)
}
