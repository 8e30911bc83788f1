// The four edges of the box. Rests on specs/Edges.antt.
ghost use Rattle.std.specs.Prelude.{◌≡◌};
ghost use Rattle.inside.specs.Edges.{edge_number, is_upright, is_outward, line_of, from_of, to_of};
ghost use Rattle.inside.specs.Edges.{factor_of, across_of};

use geometry::bounds::Bounds;

// An edge of the box, counterclockwise from the bottom.
#[derive(Clone, Copy)]
pub enum BoxEdge {
    Bottom,
    Right,
    Top,
    Left,
}

impl BoxEdge {
    // The edges by number.
    pub const ALL: [BoxEdge; 4] = [BoxEdge::Bottom, BoxEdge::Right, BoxEdge::Top, BoxEdge::Left];

    // The place of the edge among the four.
    pub fn number(self) -> usize
        ensures { result ≡ edge_number self }
    {
        self as usize
    }

    // Whether the edge is vertical.
    pub fn is_upright(self) -> bool
        ensures { result ≡ is_upright self }
    {
        matches!(self, BoxEdge::Right | BoxEdge::Left)
    }

    // Whether its outward side is that of greater x or y.
    pub fn is_outward(self) -> bool
        ensures { result ≡ is_outward self }
    {
        matches!(self, BoxEdge::Right | BoxEdge::Top)
    }

    // Where the edge is: the x of a vertical one, the y of a horizontal one.
    // The box is handed to each method: an edge that held it would be made anew of ALL for every box.
    pub fn line(self, bounds: Bounds) -> f64
        ensures { result ≡ line_of bounds self }
    {
        match self {
            BoxEdge::Bottom => bounds.y_min,
            BoxEdge::Right => bounds.x_max,
            BoxEdge::Top => bounds.y_max,
            BoxEdge::Left => bounds.x_min,
        }
    }

    // Where the edge begins: the least x of a horizontal one, the least y of a vertical one.
    pub fn from(self, bounds: Bounds) -> f64
        ensures { result ≡ from_of bounds self }
    {
        if self.is_upright() {
            bounds.y_min
        } else {
            bounds.x_min
        }
    }

    // Where it ends.
    pub fn to(self, bounds: Bounds) -> f64
        ensures { result ≡ to_of bounds self }
    {
        if self.is_upright() {
            bounds.y_max
        } else {
            bounds.x_max
        }
    }

    // The factor of its length in the area: its line, negated unless its side is outward.
    pub fn factor(self, bounds: Bounds) -> f64
        ensures { result ≡ factor_of bounds self }
    {
        let at = self.line(bounds);
        if self.is_outward() { at } else { -at }
    }

    // How far the box reaches across the edge's line.
    pub fn across(self, bounds: Bounds) -> f64
        ensures { result ≡ across_of bounds self }
    {
        if self.is_upright() {
            bounds.x_max - bounds.x_min
        } else {
            bounds.y_max - bounds.y_min
        }
    }
}
