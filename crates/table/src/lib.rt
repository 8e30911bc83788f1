// The table of a plan's rows over lent slices: worked out afresh, edited one head at a time, and run through
// a list of edits. The rules are those of `regions`, the areas those of `areas`; this crate writes them into
// the slices.
#![tactic(auto)]

pub mod afresh;
pub mod edit;
pub mod exclusives;
pub mod met;
pub mod ready;
pub mod rows;
pub mod run;
pub mod tables;
