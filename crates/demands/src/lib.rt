// Demand 1 of the calls, and what they leave of a closed head, over the steps that their contracts name: theorems over
// `finite`, `areas`, `table`, `gradients` and `watered`. There is no code here.
#![tactic(auto)]
