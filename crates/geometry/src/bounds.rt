// The extents of a box along each axis (the Rust's bounds.rs).
ghost use Rattle.std.specs.Prelude.{◌≡◌};
ghost use Rattle.geometry.specs.Bounds as spec;

#[derive(Clone, Copy, PartialEq, Debug)]
pub struct Bounds {
    pub x_min: f64,
    pub x_max: f64,
    pub y_min: f64,
    pub y_max: f64,
}

impl Bounds {
    // The box from x_min to x_max and from y_min to y_max; whether these are in order is not asked.
    pub fn new(x_min: f64, x_max: f64, y_min: f64, y_max: f64) -> Self
        ensures { result ≡ spec.extents x_min x_max y_min y_max }
    {
        Self {
            x_min,
            x_max,
            y_min,
            y_max,
        }
    }
}
