// The heads that an edited head meets, before or after, by whole numbers (`regions`, specs/Edit.antt).
ghost use Rattle.std.specs.Prelude.{◌≡◌, [], ◌∷◌, ◌<◌, ◌≤◌, get_or, length};
ghost use Rattle.plan.specs.Limits.{no_head};
ghost use Rattle.regions.specs.Edit.{meets_any, met};

use heads::{Head, meets};

// Whether a head is met by at least one of two others.
#[tactic(auto, unfolding(regions::specs::Edit::meets_any))]
fn meets_either(one: Head, other: Head, head: Head) -> bool
    ensures { result ≡ meets_any (one ∷ other ∷ []) head }
{
    meets(one, head) || meets(other, head)
}

// The heads that head k, or the one that takes its place, meets, as a mask.
// A loop and not one function that is handed the test: the closure and its contract would be longer at each place.
#[tactic(auto, using(intersections::proofs::Adopting::gathered), unfolding(regions::specs::Edit::met))]
pub(crate) fn met_by(heads: &[Head], k: usize, head: Head) -> usize
    requires { (length heads.now ≤ 10) × (k < length heads.now) }
    ensures { result
        ≡ met (get_or heads.now k no_head ∷ head ∷ []) (λ j. get_or heads.now j no_head) (length heads.now) k }
{
    let edited = heads[k];
    let mut mask: usize = 0;
    for (j, &other) in heads.iter().enumerate() {
        if j != k && meets_either(edited, head, other) {
            mask |= 1 << j;
        }
    }
    mask
}
