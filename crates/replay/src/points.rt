// Lines on a plan's meeting points. The Rust's answers are
//   I  the number of meeting points (place 1)
//   Q  the k-th (1) of them: x, y (2, 3), the two circles (4, 5) and the adopters as a mask (6)
use crate::numbers::{float, same_all};
use intersections::points::IntersectionPoint;

// Whether the k-th meeting point has these numbers.
pub(crate) fn same_point(words: &[u64], k: usize, points: &[IntersectionPoint]) -> bool {
    points.get(k).is_some_and(|q| {
        let ours = [
            q.point.x,
            q.point.y,
            float(q.first as u64),
            float(q.second as u64),
            float(q.adopters as u64),
        ];
        same_all(&ours, words)
    })
}
