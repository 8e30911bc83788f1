// What is worked out once a head, from the circles and their meeting points. Rests on specs/Marks.antt.
ghost use Rattle.std.specs.Prelude.{◌≡◌, [], length};
ghost use Rattle.lists.specs.Lists.{keep};
ghost use Rattle.intersections.specs.Members.{has_parent, circle_at};
ghost use Rattle.intersections.specs.Heads.{first_ten};
ghost use Rattle.gaps.specs.Marks as spec;
ghost use Rattle.gaps.specs.Marks.{few_points, marks_at, marks_let, head_marked, unmarked};

use crate::head::HeadOf;
use crate::numbers::MARKS;
use crate::places::next;
use arrayvec::ArrayVec;
use boundary::angles::{angle_about, probe};
use boundary::sort::{Mark, Marks, insert};
use geometry::circle::Circle;
use intersections::members::first_ten;
use intersections::points::IntersectionPoint;

// What is worked out once a head: its meeting points by angle, each with who lets it have the gap from there to the
// next, and who lets it have its probe.
#[derive(PartialEq, Debug, Default, Drop)]
pub struct HeadMarks {
    pub marks: Marks,
    pub owners: usize,
}

// Of the heads of a plan, by head number.
pub type PlanMarks = ArrayVec<HeadMarks, 10>;

// How many points head j has.
fn points_of(points: &[IntersectionPoint], j: usize) -> usize
    ensures { result ≡ length (keep (has_parent j) points.now) }
{
    points.iter().filter(|q| q.has_parent(j)).count()
}

// Whether there are places for the meeting points of each of the first n heads.
pub fn few(points: &[IntersectionPoint], n: usize) -> bool
    ensures { result ≡ few_points n points.now }
{
    (0..n).all(|j| points_of(points, j) <= MARKS)
}

impl HeadOf<'_> {
    // Its points by angle, with their adopters, put into an empty list. Who lets it have the gaps is told when all are
    // in.
    #[tactic(auto, using(crate::proofs::Marking::marking))]
    fn fill_marks(self, points: &[IntersectionPoint], marks: &mut Marks)
        requires { marks.old.items ≡ [] }
        ensures { let all = self.entry.circles.now in
            marks.new.items ≡ marks_at (circle_at all self.entry.j) self.entry.j points.now }
    {
        let circle = self.circle();
        for q in points {
            if q.has_parent(self.j) {
                let mark = Mark {
                    phi: angle_about(circle, q.point),
                    adopters: q.adopters,
                    lets: 0,
                };
                insert(marks, mark);
            }
        }
    }

    // Who lets it have the gap from each of its marks to the next, written beside the mark. By index: each mark is
    // written from itself and the next.
    #[tactic(auto, using(crate::proofs::Marking::letting))]
    fn fill_lets(self, marks: &mut [Mark])
        ensures { marks.new ≡ marks_let self.entry.circles.now self.entry.j marks.old }
    {
        for i in 0..marks.len() {
            let to = marks[next(i, marks.len())].phi;
            marks[i].lets = self.gap_letters(marks[i].phi, to);
        }
    }

    // What is worked out of it, written where nothing is held yet. As a value that is returned, each part was copied
    // four times on its way, which took 60 ns a head more.
    #[tactic(auto, unfolding(crate::specs::Marks::head_marked))]
    fn mark(self, points: &[IntersectionPoint], marked: &mut HeadMarks)
        requires { marked.old ≡ unmarked }
        ensures { marked.new ≡ head_marked self.entry.circles.now points.now self.entry.j }
    {
        self.fill_marks(points, &mut marked.marks);
        self.fill_lets(&mut marked.marks);
        marked.owners = self.letters(probe(self.circle()));
    }
}

// What is worked out of the heads of `needed` among the first ten. The others have no mark. Not inlined: the whole list
// is then copied to its place once, and otherwise twice, which took 130 ns a call more.
#[inline(never)]
#[tactic(auto, using(crate::proofs::Marking::heading))]
pub fn heads_marked(circles: &[Circle], points: &[IntersectionPoint], needed: usize) -> PlanMarks
    ensures { result.items ≡ spec.heads_marked (first_ten circles.now) points.now needed }
{
    let circles = first_ten(circles);
    let mut heads = PlanMarks::new();
    // Not an Option: a head that is not needed is in no set that is asked for. Pushed one by one, since `collect` would
    // answer a `Result`, whose error cannot come here.
    for j in 0..circles.len() {
        let mut marked = HeadMarks::default();
        if needed >> j & 1 == 1 {
            HeadOf { circles, j }.mark(points, &mut marked);
        }
        heads.push(marked);
    }
    heads
}
