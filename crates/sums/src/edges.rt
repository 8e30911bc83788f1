// The spans of the edges of the box for a set, added to a sum: from the chords of its heads. Rests on specs/Edges.antt.
ghost use Rattle.std.specs.Prelude.{◌≡◌};
ghost use Rattle.clip.specs.Gradient.{so_far};
ghost use Rattle.sums.specs.Edges.{edges_from, edges_with_gradient_from};

use chords::fill::Chords;
use chords::spans::chord_span;
use clip::area::add_span;
use clip::slopes::Sum;
use geometry::bounds::Bounds;
use inside::edges::BoxEdge;
use outline::place::Place;

// The spans of the four edges for a set, counterclockwise from the bottom, added.
pub(crate) fn add_edges(total: f64, bounds: Bounds, mask: usize, chords: &Chords) -> f64
    ensures { result ≡ edges_from bounds chords.now mask total }
{
    let mut sum = total;
    for edge in BoxEdge::ALL {
        sum = add_span(
            edge.factor(bounds),
            sum,
            chord_span(chords.edge(edge.number()), mask),
        );
    }
    sum
}

// The same with the box's four entries of a gradient, after those of the heads.
// Apart from the sum alone, which has no shares to work out.
pub(crate) fn add_edges_with_gradient(
    sum: &mut Sum<'_>,
    bounds: Bounds,
    mask: usize,
    place: Place,
    chords: &Chords,
)
    ensures same_reference { sum.new.grad.ghost_name ≡ sum.old.grad.ghost_name }
    ensures added { so_far sum.new ≡ edges_with_gradient_from bounds chords.now mask place.at (so_far sum.old) }
{
    for edge in BoxEdge::ALL {
        let span = chord_span(chords.edge(edge.number()), mask);
        sum.add_edge(edge, edge.factor(bounds), edge.across(bounds), place, span);
    }
}
