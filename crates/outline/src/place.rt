// Where entries of a gradient stand: three a head, and then the box's four. Rests on specs/Terms.antt.
ghost use Rattle.std.specs.Prelude.{◌≡◌, ◌*◌, ◌≤◌, min};
ghost use Rattle.outline.specs.Terms.{add_three_at};

use crate::gradient::{add_at, sub_at};
use crate::terms::Triple;

// The first of a head's three entries, or of the box's four. At most ten heads come before, so that no place in a
// gradient overflows.
#[derive(Clone, Copy)]
pub struct Place {
    pub at: usize,
    ghost few: { at ≤ 30 },
}

impl Place {
    // After three entries a head of n, of which at most ten count.
    pub fn after(n: usize) -> Place
        ensures { result.at ≡ min n 10 * 3 }
    {
        Place { at: n.min(10) * 3 }
    }

    // Three numbers in a head's entries: those of x and of the radius added, that of y taken.
    #[tactic(auto, unfolding(crate::specs::Terms::add_three_at))]
    pub fn add_three(self, grad: &mut [f64], three: Triple)
        ensures { grad.new ≡ add_three_at self.at three grad.old }
    {
        add_at(grad, self.at, three.x);
        sub_at(grad, self.at + 1, three.y);
        add_at(grad, self.at + 2, three.r);
    }
}
