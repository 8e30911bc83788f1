// The sets and the exclusives of a taken plan: theorems over the definitions of `sets` and `exclusive`. There is no
// code here.
#![tactic(auto)]
