// Exclusive areas and their gradients from those of sets, as in the second part of diagram.rs:
// to_exclusive_areas_and_gradients. Rests on presence bytes, one a mask, as `exclusive` does.
#![tactic(auto)]

pub mod gradients;
pub mod subtract;
