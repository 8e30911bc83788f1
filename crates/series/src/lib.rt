// No code: the 40-term sums of sine and cosine, the fixed-point part of their recipe, and the computed tests that hold
// the one against the other (specs/, proofs/).
#![tactic(auto)]
