// A line P: an ordered pair of circles, x, y, radius each (places 1 to 6), and the Rust's answers.
// The distance of the centres (7), the first circle's area (8); of the box around the first centre,
// as wide as the first radius and as high as the second, the area (9) and the bounds x_min, x_max,
// y_min, y_max (10 to 13); the coordinates of the meeting points (14 to 17), +0 where there is none,
// and their number (18); then 1 for yes: the first contains the second (19), contains the second's
// centre (20), intersects the second (21); and the area that the two share (22).
use crate::numbers::{float, same_all};
use crate::plans::circle_of;
use geometry::circle::Circle;
use geometry::meeting::Meeting;
use geometry::rectangle::Rectangle;

// The places 14 to 18. (No `From`, here and in `clipped`: neither type is of this crate.)
fn met(m: Meeting) -> [f64; 5] {
    match m {
        Meeting::None => [0.0; 5],
        Meeting::One(x, y) => [x, y, 0.0, 0.0, float(1)],
        Meeting::Two(x, y, u, v) => [x, y, u, v, float(2)],
    }
}

// A test's answer as the list has it.
fn yes(answer: bool) -> f64 {
    float(u64::from(answer))
}

// Whether the places 7 to 13 are ours.
fn same_measures(a: Circle, b: Circle, words: &[u64]) -> bool {
    let around = Rectangle::new(a.center, a.radius, b.radius);
    let bounds = around.bounds();
    let ours = [
        a.center.distance(b.center),
        a.area(),
        around.area(),
        bounds.x_min,
        bounds.x_max,
        bounds.y_min,
        bounds.y_max,
    ];
    same_all(&ours, words)
}

// Whether all answers on the line are ours.
pub(crate) fn agrees(words: &[u64; 40]) -> bool {
    let (threes, _) = words[1..].as_chunks::<3>();
    let a = circle_of(threes[0]);
    let b = circle_of(threes[1]);
    let ours = [
        yes(a.contains(b)),
        yes(a.contains_point(b.center)),
        yes(a.intersects(b)),
        a.intersection_area(b),
    ];
    same_measures(a, b, &words[7..])
        && same_all(&met(a.intersection_points(b)), &words[14..])
        && same_all(&ours, &words[19..])
}
