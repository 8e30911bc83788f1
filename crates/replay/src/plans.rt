// The plan and the box that the lines after them are about. A line H begins a plan: the number of
// its circles (place 1), from 1 to 10, and x, y and radius of each (from 2 on). A line X gives it a
// box: x_min, x_max, y_min, y_max (1 to 4).
use crate::numbers::float;
use geometry::bounds::Bounds;
use geometry::circle::{Circle, Circles};
use geometry::point::Point;
use intersections::collect::collect_intersections;
use intersections::points::Intersections;
use std::array;
use stored::line::Line;

// The circles, their meeting points, and the box, where it is given. (As `Ready` of `table`, which is private there and
// is made of a plan of whole numbers.)
#[derive(Clone, Copy)]
pub struct Plan {
    pub circles: Circles,
    pub points: Intersections,
    pub bounds: Option<Bounds>,
}

// The circle of three numbers.
pub(crate) fn circle_of([x, y, radius]: [u64; 3]) -> Circle {
    Circle::new(Point::new(float(x), float(y)), float(radius))
}

// The plan that a line H begins, with no box: none, if the line is malformed.
fn begun(line: &Line) -> Option<Plan> {
    let words = &line.words;
    let n = words[1] as usize;
    if !(1..=10).contains(&n) || line.last != 1 + n * 3 {
        return None;
    }
    let (threes, _) = words[2..].as_chunks::<3>();
    let mut circles = Circles::from(array::from_fn(|i| circle_of(threes[i])));
    circles.truncate(n);
    let points = collect_intersections(&circles);
    Some(Plan {
        circles,
        points,
        bounds: None,
    })
}

// The box of a line X: none, if the line is malformed.
fn bounds_of(line: &Line) -> Option<Bounds> {
    let [_, x_min, x_max, y_min, y_max, ..] = line.words;
    (line.last == 4).then_some(Bounds::new(float(x_min), float(x_max), float(y_min), float(y_max)))
}

// The plan after a line. One X puts it in a box.
pub(crate) fn after(line: &Line, plan: Option<Plan>) -> Option<Plan> {
    match line.letter() {
        b'H' => begun(line),
        b'X' => plan.map(|plan| Plan {
            bounds: bounds_of(line),
            ..plan
        }),
        _ => plan,
    }
}
