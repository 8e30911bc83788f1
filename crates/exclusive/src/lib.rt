// Exclusive areas from the areas of sets, as in the second part of diagram.rs: to_exclusive_areas.
// `exclusive_gradients` has the form with gradients. Rests on presence bytes, one a mask, and knows nothing of heads or
// plans.
#![tactic(auto)]

pub mod areas;
pub mod copying;
pub mod levels;
pub mod presence;
pub mod rows;
pub mod steps;
