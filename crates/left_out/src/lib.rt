// Closed heads left out: a plan without them has the same rows, exclusives, gradients and overlap, at the masks spread
// over their places. Theorems over the definitions below. There is no code here.
#![tactic(auto)]
