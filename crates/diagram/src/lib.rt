// The exclusive areas of circles, with and without a box and with their gradients (diagram.rs and the clipped functions
// of circle.rs): sets found, rows worked out, supersets subtracted, in lent slices. Knows nothing of plans.
#![tactic(auto)]

pub mod drawing;
pub mod exclusives;
pub mod gradients;
pub mod rows;
