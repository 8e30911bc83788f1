// The area that all heads but the closed ones water together, or those of a mask (the Rust's overlaps.rs). Rests on the
// open area of a set, of `outline`.
#![tactic(auto)]

pub mod overlaps;
