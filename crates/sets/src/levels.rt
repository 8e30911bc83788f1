// Masks found level by level, each from one of the level below and one head more. Rests on `in_level` of
// specs/Sets.antt and on specs/Steps.antt.
ghost use Rattle.std.specs.Prelude.{◌≡◌, true, false, ◌&&◌, ℕ, ◌≤◌, ◌<◌, ◌^◌, length};
ghost use Rattle.std.specs.Int.Count.{ones};
ghost use Rattle.geometry.specs.Circle as spec;
ghost use Rattle.masks.specs.Mask.{in_set, with_head, without_head, subset};
ghost use Rattle.masks.specs.Presence.{stands};
ghost use Rattle.sets.specs.Sets as rule;
ghost use Rattle.sets.specs.Sets.{containing, all_pairs};
ghost use Rattle.sets.specs.Regions.{contains_at};
ghost use Rattle.sets.specs.Marked.{marked};
ghost use Rattle.sets.specs.Steps.{mask_of, in_mask_of, joins, joining_of, joined_below};
ghost use Rattle.sets.specs.Steps.{twice_contained as twice_contained_of};

use crate::heads::Heads;
use geometry::circle::Circle;
use masks::is_subset;

// Whether the circle contains the other. A smaller one does not, and needs no distance.
fn contains(circle: Circle, other: Circle) -> bool
    ensures { result ≡ spec.contains circle other }
{
    if circle.radius < other.radius {
        return false;
    }
    circle.contains(other)
}

impl Heads {
    // For each head the heads whose pair with it is found.
    #[tactic(auto, using(crate::proofs::Masks::rows))]
    pub(crate) fn overlapping_heads(self, found: &[u8; 1024]) -> [usize; 10]
        ensures { (i : ℕ) → i < self.n → mask_of result i ≡ rule.overlapping self.n (stands found.now) i }
    {
        self.masks(|i, j| found[1 << i | 1 << j] == 1)
    }

    // For each head the heads that contain it.
    pub(crate) fn containing_heads(self, circles: &[Circle]) -> [usize; 10]
        requires { length circles.now ≡ self.n }
        ensures { (i : ℕ) → i < self.n → mask_of result i ≡ containing self.n (contains_at circles.now) i }
    {
        self.masks(|i, j| contains(circles[j], circles[i]))
    }

    // The heads that two others or more contain. A mask of three heads or more has one of them if one of its heads
    // is contained in all others.
    pub(crate) fn twice_contained(self, containing: &[usize; 10]) -> usize
        requires { (i : ℕ) → i < self.n → mask_of containing.now i < 2 ^ self.n }
        ensures { result ≡ twice_contained_of self.n (mask_of containing.now) }
    {
        self.mask(|i| (containing[i] & !(1 << i)).count_ones() > 1)
    }

    // Whether head i is a head of the mask, and its other heads are all in `heads`.
    #[tactic(auto, using(crate::proofs::Masks::bits))]
    fn others_in(self, mask: usize, i: usize, heads: usize) -> bool
        requires { (mask < 2 ^ self.n) × (i < self.n) }
        ensures { result ≡ (in_set mask i && subset self.n (without_head self.n mask i) heads) }
    {
        let others = mask & !(1 << i);
        mask & 1 << i != 0 && is_subset(others, heads)
    }
}

// What the levels are found by: for each head the heads whose pair with it is found and those that contain it, and
// the heads that two others or more contain.
#[derive(Clone, Copy)]
pub(crate) struct Levels<'a> {
    pub heads: Heads,
    pub overlapping: &'a [usize; 10],
    pub containing: &'a [usize; 10],
    pub twice_contained: usize,
    ghost twice_is: { twice_contained ≡ twice_contained_of heads.n (mask_of containing.now) },
    ghost turned: { (i j : ℕ) → i < heads.n → j < heads.n
        → in_mask_of overlapping.now i j ≡ in_mask_of overlapping.now j i },
}

impl Levels<'_> {
    // Whether one head of the mask is contained in all others.
    fn one_in_all(&self, mask: usize) -> bool
        requires { mask < 2 ^ self.now.heads.n }
        ensures { result ≡ rule.one_in_all self.now.heads.n (mask_of self.now.containing.now) mask }
    {
        (0..self.heads.n).any(|i| self.heads.others_in(mask, i, self.containing[i]))
    }

    // 5. Level by level, in one pass from the first mask on: a mask with one head more is a larger number, and is
    // looked at later. A mask of a level is marked as found when the pass gets there, so that the masks yet to come
    // are as they were found.
    #[tactic(auto, using(crate::proofs::Masks::rows, crate::proofs::LevelStep::passing))]
    pub(crate) fn add(&self, found: &mut [u8; 1024])
        requires { (i : ℕ) → i < self.now.heads.n
            → mask_of self.now.overlapping.now i ≡ rule.overlapping self.now.heads.n (stands found.old) i }
        ensures { found.new ≡ marked (joined_below self.now.heads.n (stands found.old)
            (mask_of self.now.overlapping.now) (mask_of self.now.containing.now) (2 ^ self.now.heads.n)) found.old }
    {
        // Bytes, as the masks found are: `add_pairs` marks both.
        let mut level = [0u8; 1024];
        // The first level: the pairs found.
        self.heads
            .add_pairs(&mut level, self.overlapping, self.overlapping);
        for mask in 0..1 << self.heads.n {
            if level[mask] == 1 {
                found[mask] = 1;
                let base = Base {
                    levels: *self,
                    mask,
                };
                base.add_joining(&mut level, found);
            }
        }
    }
}

// A mask of a level, from which masks of the next are found: it has two heads or more, and each overlaps all others.
#[derive(Clone, Copy)]
struct Base<'a> {
    levels: Levels<'a>,
    mask: usize,
    ghost within: { mask < 2 ^ levels.heads.n },
    ghost two: { 2 ≤ ones mask },
    ghost overlap: { all_pairs levels.heads.n (mask_of levels.overlapping.now) mask ≡ true },
}

impl Base<'_> {
    // Whether `more`, the mask with head i, which it lacks, joins the next level. That each head overlaps all others
    // is asked of head i alone.
    fn joins(&self, found: &[u8; 1024], i: usize, more: usize) -> bool
        requires { let n = self.now.levels.heads.n in
            (i < n) × (in_set self.now.mask i ≡ false) × (more ≡ with_head n self.now.mask i) }
        ensures { let levels = self.now.levels in
            let n = levels.heads.n in
            result ≡ joins n (stands found.now) (mask_of levels.overlapping.now) (mask_of levels.containing.now) more }
    {
        let levels = self.levels;
        // Most masks end at the second test, without a look at each head.
        found[more] != 1
            && more & levels.twice_contained != 0
            && is_subset(self.mask, levels.overlapping[i])
            && levels.one_in_all(more)
    }

    // The masks of the next level that are this one and one head more.
    #[tactic(auto, using(crate::proofs::Masks::rows, crate::proofs::LevelStep::joining))]
    fn add_joining(&self, level: &mut [u8; 1024], found: &[u8; 1024])
        ensures { let levels = self.now.levels in
            level.new ≡ marked (joining_of levels.heads.n (stands found.now) (mask_of levels.overlapping.now)
            (mask_of levels.containing.now) self.now.mask) level.old }
    {
        for i in 0..self.levels.heads.n {
            let more = self.mask | 1 << i;
            // It is reached from each of the masks with one head less; once it has joined it is not asked again.
            if self.mask & 1 << i == 0 && level[more] != 1 && self.joins(found, i, more) {
                level[more] = 1;
            }
        }
    }
}
