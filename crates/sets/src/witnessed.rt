// Singles, adopter masks and pairs: the first masks found. Rests on specs/Regions.antt and specs/Steps.antt.
ghost use Rattle.std.specs.Prelude.{◌≡◌, ◌<◌, ◌||◌, length};
ghost use Rattle.sets.specs.Marked.{marked};
ghost use Rattle.sets.specs.Sets.{paired, is_pair};
ghost use Rattle.sets.specs.Regions.{is_one_head, closed_at, is_adopters_of, meets_at, parents};
ghost use Rattle.sets.specs.Steps.{in_mask_of, MasksSay, adopted, mask_or_part};

use crate::heads::Heads;
use geometry::circle::Circle;
use intersections::points::IntersectionPoint;

impl Heads {
    // 1. Singles. A closed head has none.
    #[tactic(auto, using(crate::proofs::Masks::rows, crate::proofs::Marks::singles))]
    pub(crate) fn add_singles(self, found: &mut [u8; 1024], circles: &[Circle])
        requires { length circles.now ≡ self.n }
        ensures { found.new ≡ marked (is_one_head self.n (closed_at circles.now)) found.old }
    {
        for i in 0..self.n {
            if !circles[i].is_closed() {
                found[1 << i] = 1;
            }
        }
    }

    // The adopters of one meeting point; and, where they are three or more, their mask with each one taken away.
    #[tactic(auto, using(crate::proofs::Masks::rows, crate::proofs::Taken::of_one, crate::proofs::Marks::parts))]
    fn add_adopters_of(self, found: &mut [u8; 1024], mask: usize)
        ensures { found.new ≡ marked (mask_or_part self.n mask) found.old }
    {
        if mask < 1 << self.n {
            found[mask] = 1;
            if mask.count_ones() > 2 {
                for i in 0..self.n {
                    if mask & 1 << i != 0 {
                        found[mask & !(1 << i)] = 1;
                    }
                }
            }
        }
    }

    // 2. Every adopter mask, and 4. each mask of three or more with one head taken away: no other mask found so far has
    // three. The answer is for each head the heads that it shares a meeting point with.
    #[tactic(auto, using(crate::proofs::Taken::of_points))]
    pub(crate) fn add_points(
        self,
        found: &mut [u8; 1024],
        points: &[IntersectionPoint],
    ) -> [usize; 10]
        ensures found_value { found.new ≡ marked (adopted self.n (is_adopters_of points.now)) found.old }
        ensures meeting_value { MasksSay result (meets_at points.now) }
    {
        let mut meeting = [0usize; 10];
        for q in points {
            self.add_adopters_of(found, q.adopters);
            note_parents(&mut meeting, q);
        }
        meeting
    }

    // 3. Every pair that meets or of which one contains the other, from the masks of the heads that meet and that
    // contain each head.
    // Two lists by head, since each is made by another step and the second is asked alone too.
    #[tactic(auto, using(crate::proofs::Masks::rows, crate::proofs::Marks::pairing))]
    pub(crate) fn add_pairs(
        self,
        found: &mut [u8; 1024],
        meeting: &[usize; 10],
        containing: &[usize; 10],
    )
        ensures { found.new ≡
            marked (is_pair self.n (in_mask_of meeting.now) (λ a b. in_mask_of containing.now b a)) found.old }
    {
        for i in 0..self.n {
            for j in 0..i {
                if is_pair(meeting, containing, i, j) {
                    found[1 << i | 1 << j] = 1;
                }
            }
        }
    }
}

// Notes the parents of the point, each in the mask of the other.
fn note_parents(meeting: &mut [usize; 10], q: &IntersectionPoint)
    ensures length_kept { length meeting.new ≡ 10 }
    ensures noted { MasksSay meeting.new (λ i j. in_mask_of meeting.old i j || parents i j q.now) }
{
    let (a, b) = (q.first, q.second);
    // Tested, since a meeting point's parents are any numbers here.
    // No `get_mut`: its contract does not say how the array ends.
    if a < 10 && b < 10 {
        meeting[a] |= 1 << b;
        meeting[b] |= 1 << a;
    }
}

// Whether heads i and j meet or one contains the other.
#[tactic(auto, using(crate::proofs::Masks::bits))]
fn is_pair(meeting: &[usize; 10], containing: &[usize; 10], i: usize, j: usize) -> bool
    requires { (i < 10) × (j < 10) }
    ensures { result ≡ paired (in_mask_of meeting.now) (λ a b. in_mask_of containing.now b a) i j }
{
    meeting[i] & 1 << j != 0 || containing[j] & 1 << i != 0 || containing[i] & 1 << j != 0
}
