// Lists: loops that append, elements that pass a test, a property of every element, a list of steps, a list written in
// place, some that pass; and their laws. No code.
#![tactic(auto)]
