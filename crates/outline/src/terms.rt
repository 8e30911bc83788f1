// The three numbers that an arc adds: terms of an area, slopes of a gradient. Rests on specs/Terms.antt.
ghost use Rattle.std.specs.Prelude.{◌≡◌};
ghost use Rattle.outline.specs.Terms.{terms_of, slopes_of, add_triple};

use binary64::{abs, signum};
use boundary::arcs::BoundaryArc;
use elementary::sine::{cos, sin};
use geometry::circle::Circle;

// Three numbers, by x, y and radius.
#[derive(Clone, Copy, Default)]
pub struct Triple {
    pub x: f64,
    pub y: f64,
    pub r: f64,
}

impl Triple {
    // A const beside the derived default, since arrays are filled with it.
    pub const ZERO: Triple = Triple {
        x: 0.0,
        y: 0.0,
        r: 0.0,
    };
}

// The terms that an arc of a circle adds to an area. An arc and its circle are two arguments, here and elsewhere: the
// arc names its circle by number, and a struct of both would be put together anew at each call.
#[tactic(auto, unfolding(crate::specs::Terms::terms_of))]
pub fn terms_of(circle: Circle, arc: BoundaryArc) -> Triple
    ensures { result ≡ terms_of circle arc }
{
    let r = circle.radius;
    let phi_a = arc.phi_start;
    let phi_b = phi_a + arc.delta_phi;
    Triple {
        x: circle.center.x * r * (sin(phi_b) - sin(phi_a)),
        y: circle.center.y * r * (cos(phi_a) - cos(phi_b)),
        r: r * r * arc.delta_phi,
    }
}

// The slopes that it adds to a gradient; that of y is taken.
#[tactic(auto, unfolding(crate::specs::Terms::slopes_of))]
pub fn slopes_of(circle: Circle, arc: BoundaryArc) -> Triple
    ensures { result ≡ slopes_of circle arc }
{
    let r = circle.radius;
    let signed = signum(arc.delta_phi) * r;
    Triple {
        x: signed * (sin(arc.phi_end) - sin(arc.phi_start)),
        y: signed * (cos(arc.phi_end) - cos(arc.phi_start)),
        r: r * abs(arc.delta_phi),
    }
}

// The three added to a sum one after another, as the Rust does: added to each other first they would give other bits.
pub fn add_three(total: f64, three: Triple) -> f64
    ensures { result ≡ add_triple total three }
{
    total + three.x + three.y + three.r
}
