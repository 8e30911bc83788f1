// What the program prints, as bytes in a lent slice: the lines of a table (`rows`) and the line of a refusal
// (`refusal`), both over a text's digits and words (`text`). Knows no plan and no table but two slices.
#![tactic(auto)]

pub mod refusal;
pub mod rows;
mod text;
