// Circles, meeting points, arcs and spans as the differential run hands them over and gets them, as C lays them out.
// Rests on specs/Handed.antt.
ghost use Rattle.std.specs.Prelude.{◌≡◌};
ghost use Rattle.inside.specs.Span.{spans};
ghost use Rattle.probe.specs.Handed as spec;

use crate::Extents;
use boundary::arcs::BoundaryArc;
use gaps::places::circle_at;
use geometry::bounds::Bounds;
use geometry::circle;
use inside::span::Span;
use intersections::points::IntersectionPoint;
use std::array;

// Ten circles: x, y and radius of each in turn.
#[repr(C)]
#[derive(Clone, Copy)]
pub struct Circles {
    pub numbers: [f64; 30],
}

// A meeting point.
#[repr(C)]
#[derive(Clone, Copy, Default)]
pub struct Met {
    pub x: f64,
    pub y: f64,
    pub first: usize,
    pub second: usize,
    pub adopters: usize,
}

// An arc.
#[repr(C)]
#[derive(Clone, Copy, Default)]
pub struct Arc {
    pub head: usize,
    pub start: f64,
    pub end: f64,
    pub delta: f64,
}

// How many spans, and the ends of the one; without one both are +0.
#[repr(C)]
#[derive(Clone, Copy, Default)]
pub struct Ends {
    pub number: usize,
    pub low: f64,
    pub high: f64,
}

// The first n of them.
pub(crate) fn circles_of(c: Circles, n: usize) -> circle::Circles
    ensures { result.items ≡ spec.circles c.numbers n }
{
    let mut circles = circle::Circles::from(array::from_fn(|i| circle_at(&c.numbers, i)));
    circles.truncate(n);
    circles
}

// The same four numbers.
impl From<Extents> for Bounds {
    ghost from_gives = { λ sides bounds. bounds ≡ spec.bounds_of sides };

    fn from(sides: Extents) -> Bounds {
        Bounds::new(sides.x_min, sides.x_max, sides.y_min, sides.y_max)
    }
}

// A meeting point, as it is handed out.
impl From<IntersectionPoint> for Met {
    ghost from_gives = { λ point met. met ≡ spec.met point };

    fn from(point: IntersectionPoint) -> Met {
        Met {
            x: point.point.x,
            y: point.point.y,
            first: point.first,
            second: point.second,
            adopters: point.adopters,
        }
    }
}

// An arc, as it is handed out, and as it is handed over.
impl From<BoundaryArc> for Arc {
    ghost from_gives = { λ arc told. told ≡ spec.arc arc };

    fn from(arc: BoundaryArc) -> Arc {
        Arc {
            head: arc.circle,
            start: arc.phi_start,
            end: arc.phi_end,
            delta: arc.delta_phi,
        }
    }
}

impl From<Arc> for BoundaryArc {
    ghost from_gives = { λ told arc. arc ≡ spec.boundary_arc told };

    fn from(told: Arc) -> BoundaryArc {
        BoundaryArc {
            circle: told.head,
            phi_start: told.start,
            phi_end: told.end,
            delta_phi: told.delta,
        }
    }
}

// The one span, or none.
impl From<Span> for Ends {
    ghost from_gives = { λ span ends. ends ≡ spec.ends_of (spans span) };

    fn from(span: Span) -> Ends {
        match span {
            Span::None => Ends::default(),
            Span::Ends(low, high) => Ends {
                number: 1,
                low,
                high,
            },
        }
    }
}

// The k-th meeting point; zeros where there is none.
// This and the next are two and not one over the types: its contract would hand on those of `From` and `Default`, and
// be longer than both.
#[tactic(auto, unfolding(crate::specs::Handed::met_at))]
pub(crate) fn point_at(list: &[IntersectionPoint], k: usize) -> Met
    ensures { result ≡ spec.met_at list.now k }
{
    list.get(k).copied().map(Met::from).unwrap_or_default()
}

// The k-th arc; zeros where there is none.
#[tactic(auto, unfolding(crate::specs::Handed::arc_at))]
pub(crate) fn arc_at(list: &[BoundaryArc], k: usize) -> Arc
    ensures { result ≡ spec.arc_at list.now k }
{
    list.get(k).copied().map(Arc::from).unwrap_or_default()
}
