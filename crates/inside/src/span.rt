// The span of an edge of the box: the part of it that every head of a set waters.
// Rests on specs/Span.antt.
ghost use Rattle.std.specs.Prelude.{◌≡◌};
ghost use Rattle.intersections.specs.Heads.{circle_list};
ghost use Rattle.inside.specs.Span.{misses, half_chord, raised, lowered, open-between, seen};
ghost use Rattle.inside.specs.Edges.{edge_span};
ghost use Rattle.inside.specs.Span.{spans, horizontal_span, vertical_span};

use crate::edges::BoxEdge;
use binary64::larger;
use elementary::root::root;
use geometry::bounds::Bounds;
use geometry::circle::Circle;
use geometry::point::Point;
use intersections::members::HeadCircle;

// No span, or the low and the high end: an Option<(f64, f64)> in the Rust, here an enum, the form that
// docs/DECISIONS.md names.
#[derive(Clone, Copy)]
pub enum Span {
    None,
    Ends(f64, f64),
}

// Whether a circle does not reach the line at y.
#[tactic(auto, unfolding(crate::specs::Span::misses))]
pub fn misses(y: f64, c: Circle) -> bool
    ensures { result ≡ misses y c }
{
    let dy = y - c.center.y;
    dy * dy > c.radius * c.radius
}

// Half the chord that a circle cuts from the line at y.
#[tactic(auto, unfolding(crate::specs::Span::half_chord))]
pub fn half_chord(y: f64, c: Circle) -> f64
    ensures { result ≡ half_chord y c }
{
    let dy = y - c.center.y;
    root(larger(c.radius * c.radius - dy * dy, 0.0))
}

// The greater of both; a low end that is a NaN stays one, where `larger` would give the other.
#[tactic(auto, unfolding(crate::specs::Span::raised))]
pub fn raised(lo: f64, end: f64) -> f64
    ensures { result ≡ raised lo end }
{
    if end > lo { end } else { lo }
}

// The lesser of both, in the same way.
#[tactic(auto, unfolding(crate::specs::Span::lowered))]
pub fn lowered(hi: f64, end: f64) -> f64
    ensures { result ≡ lowered hi end }
{
    if end < hi { end } else { hi }
}

// Two ends, if the high one is above the low one.
#[tactic(auto, using(crate::proofs::Spanning::opened))]
pub fn open_between(lo: f64, hi: f64) -> Span
    ensures { spans result ≡ open-between lo hi }
{
    if hi > lo {
        Span::Ends(lo, hi)
    } else {
        Span::None
    }
}

// A circle as an edge sees it: for a vertical edge x and y change places.
// `upright` stays a bool: which way the edge lies is all that it says, and no value goes with either way.
#[tactic(auto, unfolding(crate::specs::Span::seen, crate::specs::Span::swapped))]
pub fn seen(upright: bool, c: Circle) -> Circle
    ensures { result ≡ seen upright c }
{
    if upright {
        Circle::new(Point::new(c.center.y, c.center.x), c.radius)
    } else {
        c
    }
}

// The span of an edge. The Rust also stops as soon as the ends have met: the answers are the same, since the low end
// only rises and the high end only falls.
#[tactic(auto, using(crate::proofs::Spanning::heads_in_turn))]
pub fn edge_inside_interval(edge: BoxEdge, bounds: Bounds, set: &[HeadCircle]) -> Span
    ensures { spans result ≡ edge_span bounds edge (circle_list set.now) }
{
    let upright = edge.is_upright();
    let at = edge.line(bounds);
    let mut lo = edge.from(bounds);
    let mut hi = edge.to(bounds);
    for member in set {
        let c = seen(upright, member.circle);
        if misses(at, c) {
            return Span::None;
        }
        let half = half_chord(at, c);
        lo = raised(lo, c.center.x - half);
        hi = lowered(hi, c.center.x + half);
    }
    open_between(lo, hi)
}

// The span of the edge at y from x_min to x_max: the bottom of a box that ends there. This and the next are the Rust's
// two names, for the one body.
pub fn horizontal_edge_inside_interval(y: f64, x_min: f64, x_max: f64, set: &[HeadCircle]) -> Span
    ensures { spans result ≡ horizontal_span y x_min x_max (circle_list set.now) }
{
    edge_inside_interval(BoxEdge::Bottom, Bounds::new(x_min, x_max, y, y), set)
}

// The span of the edge at x from y_min to y_max: the left edge of a box that ends there.
pub fn vertical_edge_inside_interval(x: f64, y_min: f64, y_max: f64, set: &[HeadCircle]) -> Span
    ensures { spans result ≡ vertical_span x y_min y_max (circle_list set.now) }
{
    edge_inside_interval(BoxEdge::Left, Bounds::new(x, x, y_min, y_max), set)
}
