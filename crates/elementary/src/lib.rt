// The elementary functions below the geometry: root and hypot, sine and cosine, atan2, acos and asin.
// What stands above knows only their promises, which specs/ states and proofs/ proves.
// Each is a function of the C interface and answers one number: outside its domain that is +0, and no `None`.
#![tactic(auto)]

pub mod arctangent;
mod fixed;
pub mod root;
pub mod sine;
