// What is worked out once a head: its meeting points by angle and who lets it have the gaps between them; and from that
// whether a gap is an arc of a set, and the number of that arc. And the circle of a head from its three numbers.
#![tactic(auto)]

mod head;
pub mod marks;
pub mod numbers;
pub mod places;
