// The span of an edge of the box for a set, from the chords of its heads. Rests on specs/Chords.antt.
ghost use Rattle.std.specs.Prelude.{◌≡◌, ◌%◌, map, get_or};
ghost use Rattle.inside.specs.Span.{spans};
ghost use Rattle.chords.specs.Chords.{held_of, held_span, none_held};

use crate::fill::{Chords, EdgeChords};
use inside::span::{Span, lowered, open_between, raised};
use masks::is_subset;

impl Chords {
    // What is held of an edge. The edges by number: bottom, right, top, left, and round again.
    pub fn edge(&self, number: usize) -> &EdgeChords
        ensures { held_of result.now ≡ get_or (map held_of self.now.edges) (number % 4) none_held }
    {
        &self.edges[number % 4]
    }
}

// The span of an edge for a set, from what is held of the edge. Not edge_inside_interval of `inside`: there each chord
// is worked out in its turn, and the first circle that misses ends it.
#[tactic(auto, using(crate::proofs::Spanning::heads_in_turn))]
pub fn chord_span(held: &EdgeChords, mask: usize) -> Span
    ensures { spans result ≡ held_span (held_of held.now) mask }
{
    if !is_subset(mask, held.reach) {
        return Span::None;
    }
    let mut lo = held.from;
    let mut hi = held.to;
    for (l, chord) in held.chords.iter().enumerate() {
        if mask >> l & 1 == 1 {
            lo = raised(lo, chord.low);
            hi = lowered(hi, chord.high);
        }
    }
    open_between(lo, hi)
}
