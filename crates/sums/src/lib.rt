// The areas of all rows of a pass, worked out together, so that what rows share is worked out once: of each head its
// meeting points by angle and who lets it have each gap between them (`gaps`), what each gap adds to a sum, and its
// chords with the edges of the box (`chords`). And which rows of a table are there.
#![tactic(auto)]

mod arcs;
mod edges;
mod fast;
pub mod gradients;
mod lookup;
mod pass;
pub mod presence;
mod row;
pub mod rows;
mod shares;
mod terms;
mod walk;
