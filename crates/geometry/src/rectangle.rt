// A box whose sides lie along the axes, by its centre (the Rust's rectangle.rs, of which only area
// and bounds are carried over).
ghost use Rattle.std.specs.Prelude.{◌≡◌};
ghost use Rattle.geometry.specs.Rectangle as spec;

use crate::bounds::Bounds;
use crate::point::Point;

#[derive(Clone, Copy, PartialEq, Debug)]
pub struct Rectangle {
    pub center: Point,
    pub width: f64,
    pub height: f64,
}

impl Rectangle {
    // The box of these sides about the centre.
    pub fn new(center: Point, width: f64, height: f64) -> Self
        ensures { result ≡ spec.around center width height }
    {
        Self {
            center,
            width,
            height,
        }
    }

    // Width times height.
    pub fn area(self) -> f64
        ensures { result ≡ spec.area self }
    {
        self.width * self.height
    }

    // Half a side each way from the centre.
    pub fn bounds(self) -> Bounds
        ensures { result ≡ spec.bounds self }
    {
        let half_width = self.width / 2.0;
        let half_height = self.height / 2.0;
        Bounds::new(
            self.center.x - half_width,
            self.center.x + half_width,
            self.center.y - half_height,
            self.center.y + half_height,
        )
    }
}
