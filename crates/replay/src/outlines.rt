// Lines on the outline of a set of a plan's heads. A set stands as a mask. The Rust's answers are
//   N  of a set (place 1) the number of arcs of its outline (2)
//   T  of a set (1) the k-th (2) arc: its head (3), start, end and length (4 to 6)
//   R  of a set (1) the open area (2), which we work out from the arcs and straight from the members
//   G  of a set (1) the gradient of that area onto zeros, by head numbers (from 2 on)
use crate::numbers::{float, same_all};
use boundary::arcs::BoundaryArc;
use geometry::circle::Circles;
use outline::gradient::accumulate_region_overlap_gradient;

// Whether the k-th arc has these numbers.
pub(crate) fn same_arc(words: &[u64], k: usize, arcs: &[BoundaryArc]) -> bool {
    arcs.get(k).is_some_and(|arc| {
        let ours = [
            float(arc.circle as u64),
            arc.phi_start,
            arc.phi_end,
            arc.delta_phi,
        ];
        same_all(&ours, words)
    })
}

// Whether the gradient of the open area has these numbers.
pub(crate) fn same_gradient(words: &[u64], arcs: &[BoundaryArc], circles: &Circles) -> bool {
    let mut grad = [0.0; 34];
    accumulate_region_overlap_gradient(arcs, circles, &mut grad);
    same_all(&grad, words)
}
