// Points, boxes and circles, with the Rust's names and its float operations in its order. Rests on
// `elementary`, of which only the promises are known here, and on the small float functions of
// `binary64`.
#![tactic(auto)]

pub mod bounds;
pub mod circle;
pub mod meeting;
pub mod pair;
pub mod point;
pub mod rectangle;
