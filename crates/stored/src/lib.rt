// What the programs share that hold our answers against a stored list of the Rust's: how a line of a list is
// read, and how the lines are counted and what is printed of them.
#![tactic(auto)]

pub mod counts;
mod feeding;
pub mod line;
pub mod numbers;
