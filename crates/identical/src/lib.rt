// Identical heads in a set with meeting points: the lower one owns the arcs. There is no code here.
#![tactic(auto)]
