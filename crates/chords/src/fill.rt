// The chords that the heads cut from the edges of the box. Rests on specs/Chords.antt.
ghost use Rattle.std.specs.Prelude.{◌≡◌, map};
ghost use Rattle.intersections.specs.Heads.{first_ten};
ghost use Rattle.inside.specs.Edges.{box_edges};
ghost use Rattle.chords.specs.Chords.{chord_from, reach_of, chords_written, chords_of, held_of};

use arrayvec::ArrayVec;
use geometry::bounds::Bounds;
use geometry::circle::Circle;
use inside::edges::BoxEdge;
use inside::span::{half_chord, misses, seen};
use intersections::members::first_ten;

// The ends of the chord that a head cuts from an edge. Both are 0 by default, for a head that is not needed. Not an
// Option: such a head is in no set that is asked for, and a None would need an answer of the span that nobody reads.
#[derive(Clone, Copy, Default)]
pub struct Chord {
    pub low: f64,
    pub high: f64,
}

// What is held of an edge of the box: its ends, the heads that reach it, as a mask, and a chord for each head.
#[derive(Drop)]
pub struct EdgeChords {
    pub from: f64,
    pub to: f64,
    pub reach: usize,
    pub chords: ArrayVec<Chord, 10>,
}

// The same of the four edges, by number.
#[derive(Drop)]
pub struct Chords {
    pub edges: [EdgeChords; 4],
}

// The chord that a circle, as an edge sees it, cuts from the edge's line.
#[tactic(auto, unfolding(crate::specs::Chords::chord_from))]
fn chord_from(at: f64, c: Circle) -> Chord
    ensures { result ≡ chord_from at c }
{
    let half = half_chord(at, c);
    Chord {
        low: c.center.x - half,
        high: c.center.x + half,
    }
}

// The heads that reach an edge, as a mask. Of the circles the first ten are read.
// A loop and not one function that is handed the test: the closure and its contract would be longer at each place.
#[tactic(auto, using(intersections::proofs::Adopting::gathered))]
pub fn reach_of(circles: &[Circle], bounds: Bounds, edge: BoxEdge) -> usize
    ensures { result ≡ reach_of bounds (first_ten circles.now) edge }
{
    let upright = edge.is_upright();
    let at = edge.line(bounds);
    let mut reach = 0;
    for (l, circle) in first_ten(circles).iter().enumerate() {
        if !misses(at, seen(upright, *circle)) {
            reach |= 1 << l;
        }
    }
    reach
}

// The chords of the heads of `needed` with an edge, each at its head's place. What stands in any other place stays,
// and a head for which there is no place is left out. Of the circles the first ten are read. Written by place: over
// a `zip` with `iter_mut` the loop's invariant has no name for the slice, which the contract speaks of.
pub fn write_chords(
    circles: &[Circle],
    bounds: Bounds,
    needed: usize,
    edge: BoxEdge,
    chords: &mut [Chord],
)
    ensures { chords.new ≡ chords_written bounds (first_ten circles.now) needed edge chords.old }
{
    let upright = edge.is_upright();
    let at = edge.line(bounds);
    let circles = first_ten(circles);
    let count = circles.len().min(chords.len());
    for (l, circle) in circles[..count].iter().enumerate() {
        if needed >> l & 1 == 1 {
            chords[l] = chord_from(at, seen(upright, *circle));
        }
    }
}

impl EdgeChords {
    // What is held of an edge, with the chords of the heads of `needed`. Circles, box and heads are parameters, handed
    // down once: a struct of them would be made in `Chords::of` and taken apart here. The list first has, for as many
    // heads as are read, the chord of one that is not needed (it holds ten); those of `needed` are written over these.
    fn of(circles: &[Circle], bounds: Bounds, needed: usize, edge: BoxEdge) -> EdgeChords
        ensures { held_of result ≡ chords_of bounds (first_ten circles.now) needed edge }
    {
        let mut chords = ArrayVec::from([Chord::default(); 10]);
        chords.truncate(circles.len());
        write_chords(circles, bounds, needed, edge, &mut chords);
        EdgeChords {
            from: edge.from(bounds),
            to: edge.to(bounds),
            reach: reach_of(circles, bounds, edge),
            chords,
        }
    }
}

impl Chords {
    // Which heads reach each edge, and the chords of the heads of `needed` with the four edges. A head that is not
    // needed has 0 for both ends. Of the circles the first ten are read.
    pub fn of(circles: &[Circle], bounds: Bounds, needed: usize) -> Chords
        ensures filled { map held_of result.edges ≡ map (chords_of bounds (first_ten circles.now) needed) box_edges }
    {
        Chords {
            edges: BoxEdge::ALL.map(|edge| EdgeChords::of(circles, bounds, needed, edge)),
        }
    }
}
