// A plan file fed in pieces to the reader and to lent tables (`feeding`), and what the program prints of it
// (`listing`). Printing is apart, so that another program can read files into tables and print something else.
#![tactic(auto)]

pub mod feeding;
pub mod listing;
