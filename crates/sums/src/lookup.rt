// What the arcs between neighbours and the whole circles add, which is the same for every set, held by their numbers.
// Rests on specs/Values.antt.
ghost use Rattle.std.specs.Prelude.{◌≡◌, ◌*◌, ◌<◌, length};
ghost use mathlib.Core.List.{foldl};
ghost use Rattle.lists.specs.Every.{Every};
ghost use Rattle.sums.specs.Walk.{Placed};
ghost use Rattle.sums.specs.Values.{term_of, Standing, Valued, sum_of};
ghost use Rattle.sums.specs.Slopes.{add_slopes_at};

use crate::arcs::ArcOf;
use crate::pass::Pass;
use crate::terms::{OfArc, WithSlopes};
use arrayvec::ArrayVec;
use gaps::numbers::{ArcNumber, HELD};
use outline::place::Place;

// The numbers of the arcs between neighbours and of the whole circles of the heads of `needed`.
pub(crate) fn standing_arcs(pass: &Pass) -> ArrayVec<usize, HELD>
    ensures { Standing pass.now.needed pass.now.heads.now.items result.items }
{
    let mut places = ArrayVec::new();
    for (j, head) in pass.heads.iter().enumerate() {
        for mark in 0..head.marks.len() {
            places.push(ArcNumber::Next {
                head: j,
                from: mark,
            }
            .number());
        }
    }
    for j in 0..pass.circles.len() {
        if pass.needed >> j & 1 == 1 {
            places.push(ArcNumber::Whole { head: j }.number());
        }
    }
    places
}

// What each of these arcs adds, at its number. Filled where it is kept: returned, up to 16 kB would be copied.
#[tactic(auto, using(crate::proofs::Filling::listing), unfolding(crate::specs::Values::term_of))]
pub(crate) fn fill<N: OfArc>(pass: &Pass, of: &N, values: &mut [N::Value])
    requires { length values.old ≡ 330 }
    ensures long { length values.new ≡ 330 }
    ensures valued { (none : N.Value) → Valued pass.now.needed pass.now.circles.now pass.now.heads.now.items
        (N.value of.now) none values.new }
{
    let places = standing_arcs(pass);
    for place in places.iter() {
        let arc = ArcOf {
            pass: *pass,
            place: *place,
        };
        values[*place] = of.of(arc.circle(), arc.arc());
    }
}

// The numbers of the arcs of a pass, as they are held: by kind, `of`, and in a lent array with a place for each number.
// A slice with its length, and no `&[N::Value; HELD]`: tried, and the proof of `at` did not close, since nothing says
// that an array of values of a type parameter fits in memory.
#[derive(Drop)]
pub(crate) struct Held<'a, N: OfArc> {
    pub(crate) pass: Pass<'a>,
    pub(crate) of: N,
    pub(crate) values: &'a [N::Value],
    ghost long: { length values.now ≡ 330 },
    ghost valued: { (none : N.Value) → Valued pass.needed pass.circles.now pass.heads.now.items (N.value of) none
        values.now },
}

impl<'a, N: OfArc> Held<'a, N> {
    // What the arc of a number adds: looked up, or worked out where its angles are no neighbours. By number, here and
    // below and in `shares`, and not by `ArcOf`: nothing there says that its pass is that of `self`.
    #[tactic(auto, unfolding(crate::specs::Values::term_of))]
    fn at(&self, place: usize) -> N::Value
        requires { Placed self.now.pass.needed self.now.pass.heads.now.items place }
        ensures { result ≡ term_of (N.value self.now.of) self.now.pass.circles.now self.now.pass.heads.now.items place }
    {
        match self.values.get(place) {
            Some(value) => *value,
            None => {
                let arc = ArcOf {
                    pass: self.pass,
                    place,
                };
                self.of.of(arc.circle(), arc.arc())
            }
        }
    }

    // What the arcs of a list add, added up.
    pub(crate) fn sum(&self, arcs: &[usize]) -> f64
        requires { Every (Placed self.now.pass.needed self.now.pass.heads.now.items) arcs.now }
        ensures { result ≡ sum_of N.added (term_of (N.value self.now.of) self.now.pass.circles.now
            self.now.pass.heads.now.items) arcs.now }
    {
        let mut total = 0.0;
        for place in arcs {
            total = N::add(total, self.at(*place));
        }
        total
    }
}

// The slopes of the arcs of a list, added to a gradient. No method: an `impl` for `Held` of this kind alone would have
// nothing else.
pub(crate) fn add_slopes(grad: &mut [f64], arcs: &[usize], held: &Held<'_, WithSlopes>)
    requires { Every (Placed held.now.pass.needed held.now.pass.heads.now.items) arcs.now }
    ensures { grad.new ≡ foldl (add_slopes_at held.now.pass.circles.now held.now.pass.heads.now.items) grad.old
        arcs.now }
{
    for place in arcs {
        let arc = ArcOf {
            pass: held.pass,
            place: *place,
        };
        Place::after(arc.head()).add_three(grad, held.at(*place).slopes);
    }
}
