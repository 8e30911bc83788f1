// The chords that the heads cut from the edges of the box, worked out once for all sets, and the span of an edge for a
// set from them.
#![tactic(auto)]

pub mod fill;
pub mod spans;
