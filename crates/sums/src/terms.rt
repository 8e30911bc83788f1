// What each arc adds to the sum of a set: in the box one integral, without it three terms, and to a gradient three
// slopes. Rests on specs/Values.antt and specs/Slopes.antt.
ghost use Rattle.std.specs.Prelude.{◌≡◌, Float};
ghost use Rattle.binary64.specs.Floats.{◌+ᶠ◌};
ghost use Rattle.geometry.specs.declared.circle.Circle.{Circle};
ghost use Rattle.boundary.specs.declared.arcs.BoundaryArc.{BoundaryArc};
ghost use Rattle.inside.specs.Parts as parts;
ghost use Rattle.outline.specs.Terms.{terms_of, add_triple};
ghost use Rattle.sums.specs.Slopes.{with_slopes};

use boundary::arcs::BoundaryArc;
use geometry::bounds::Bounds;
use geometry::circle::Circle;
use inside::parts::clipped_arc_integral;
use outline::terms::{Triple, add_three, slopes_of, terms_of};

// What an arc adds, and how that is added to an area.
pub(crate) trait OfArc: Copy {
    type Value: Copy;

    ghost value: { Self → Circle → BoundaryArc → Self.Value };

    ghost added: { Float → Self.Value → Float };

    fn of(&self, circle: Circle, arc: BoundaryArc) -> Self::Value
        ensures { result ≡ value self.now circle arc };

    fn add(total: f64, number: Self::Value) -> f64
        ensures { result ≡ added total number };
}

// Without a box, of an area alone.
#[derive(Clone, Copy)]
pub(crate) struct Terms;

impl OfArc for Terms {
    type Value = Triple;

    ghost value = { λ n. terms_of };

    ghost added = { add_triple };

    fn of(&self, circle: Circle, arc: BoundaryArc) -> Triple {
        terms_of(circle, arc)
    }

    fn add(total: f64, terms: Triple) -> f64 {
        add_three(total, terms)
    }
}

// What an arc adds without a box to an area and to its gradient.
#[derive(Clone, Copy, Default)]
pub(crate) struct TermsAndSlopes {
    pub(crate) terms: Triple,
    pub(crate) slopes: Triple,
}

// Without a box, of an area with its gradient.
#[derive(Clone, Copy)]
pub(crate) struct WithSlopes;

impl OfArc for WithSlopes {
    type Value = TermsAndSlopes;

    ghost value = { λ n. with_slopes };

    ghost added = { λ total both. add_triple total both.terms };

    #[tactic(auto, unfolding(crate::specs::Slopes::with_slopes))]
    fn of(&self, circle: Circle, arc: BoundaryArc) -> TermsAndSlopes {
        TermsAndSlopes {
            terms: terms_of(circle, arc),
            slopes: slopes_of(circle, arc),
        }
    }

    fn add(total: f64, both: TermsAndSlopes) -> f64 {
        add_three(total, both.terms)
    }
}

// In the box.
#[derive(Clone, Copy)]
pub(crate) struct Integrals {
    pub(crate) bounds: Bounds,
}

impl OfArc for Integrals {
    type Value = f64;

    ghost value = { λ n. parts.clipped_arc_integral n.bounds };

    ghost added = { λ total x. total +ᶠ x };

    fn of(&self, circle: Circle, arc: BoundaryArc) -> f64 {
        clipped_arc_integral(arc, circle, self.bounds)
    }

    fn add(total: f64, integral: f64) -> f64 {
        total + integral
    }
}
