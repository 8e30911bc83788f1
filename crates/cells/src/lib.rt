// No code: the fixed-point part of the recipe of atan2, and the computed tests that hold it against the 40-term sums
// (specs/, proofs/).
#![tactic(auto)]
