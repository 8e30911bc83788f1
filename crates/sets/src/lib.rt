// Which masks are among the sets of circles (the Rust's discover_regions): diagram.rs between collect_intersections and
// the exclusives. Rests on the meeting points of `intersections` and on the laws of masks.
// The numbers 1 to 5 at functions are those of the rule's phases, in the order in which specs/Sets.antt has them:
// singles (of heads that are not closed), adopter masks, pairs, masks with one head taken away, levels. The code takes
// 2 and 4 together and singles after the pairs: what is found is the same.
#![tactic(auto)]

pub mod discover;
mod heads;
mod levels;
mod witnessed;
