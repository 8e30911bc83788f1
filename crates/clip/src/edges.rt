// The spans of the four edges of the box, summed together with their shares of the gradient.
// Rests on specs/Gradient.antt.
ghost use Rattle.std.specs.Prelude.{◌≡◌};
ghost use Rattle.intersections.specs.Heads.{circle_list};
ghost use Rattle.inside.specs.Span.{spans};
ghost use Rattle.clip.specs.Gradient.{so_far, edge_slopes, add_span_with_gradient, add_edges_with_gradient};

use crate::slopes::Sum;
use geometry::bounds::Bounds;
use inside::edges::BoxEdge;
use inside::span::{Span, edge_inside_interval};
use intersections::members::HeadCircle;
use outline::gradient::{add_at, sub_at};
use outline::place::Place;

// The share of a span of length l in the box's four entries: the edge moves with the centre, and by a quarter of the
// side across with each size parameter.
#[tactic(auto, unfolding(crate::specs::Gradient::edge_slopes))]
fn edge_slopes(grad: &mut [f64], edge: BoxEdge, across: f64, place: Place, l: f64)
    ensures { grad.new ≡ edge_slopes edge across place.at l grad.old }
{
    let at = place.at;
    let share = across / 4.0 * l;
    match edge {
        BoxEdge::Bottom => sub_at(grad, at + 1, l),
        BoxEdge::Right => add_at(grad, at, l),
        BoxEdge::Top => add_at(grad, at + 1, l),
        BoxEdge::Left => sub_at(grad, at, l),
    }
    add_at(grad, at + 2, share);
    if edge.is_upright() {
        add_at(grad, at + 3, share);
    } else {
        sub_at(grad, at + 3, share);
    }
}

impl Sum<'_> {
    // The span of an edge, added: its length by a factor. Its share, by the side across, is added to the box's four
    // entries from a place on. Factor and side are numbers beside the edge: the call has always taken any, and not only
    // those of a box.
    #[tactic(auto, unfolding(crate::specs::Gradient::add_span_with_gradient))]
    pub fn add_edge(&mut self, edge: BoxEdge, factor: f64, across: f64, place: Place, span: Span)
        ensures same_reference { self.new.grad.ghost_name ≡ self.old.grad.ghost_name }
        ensures added { so_far self.new
            ≡ add_span_with_gradient edge factor across place.at (so_far self.old) (spans span) }
    {
        if let Span::Ends(lo, hi) = span {
            let l = hi - lo;
            edge_slopes(self.grad, edge, across, place, l);
            self.total += factor * l;
        }
    }

    // The spans of the four edges, counterclockwise from the bottom, added.
    #[tactic(auto, unfolding(crate::specs::Gradient::add_edges_with_gradient))]
    pub(crate) fn add_edges(&mut self, bounds: Bounds, set: &[HeadCircle], place: Place)
        ensures same_reference { self.new.grad.ghost_name ≡ self.old.grad.ghost_name }
        ensures added { so_far self.new
            ≡ add_edges_with_gradient bounds (circle_list set.now) place.at (so_far self.old) }
    {
        for edge in BoxEdge::ALL {
            let span = edge_inside_interval(edge, bounds, set);
            self.add_edge(edge, edge.factor(bounds), edge.across(bounds), place, span);
        }
    }
}
