// A plan whose radii are all above 0 is answered as it was before a head could be closed: theorems over `overlaps`,
// `gradients` and `table`. There is no code here.
#![tactic(auto)]
