// The heads whose sets are looked for.
ghost use Rattle.std.specs.Prelude.{◌≡◌, Bool, ℕ, ◌≤◌, ◌<◌};
ghost use Rattle.masks.specs.Mask.{gather};
ghost use Rattle.sets.specs.Steps.{mask_of, AnswersAs, AnswersBothAs};

// The heads below n. There are at most ten, so that a mask of them is an index of the 1024 presence bytes.
#[derive(Clone, Copy)]
pub(crate) struct Heads {
    pub n: usize,
    ghost few: { n ≤ 10 },
}

impl Heads {
    // The heads that pass the test, as a mask: if it answers as p, those for which p holds.
    // Of this crate's heads alone: elsewhere the closure and its contract would be longer than the loop.
    #[tactic(auto, using(intersections::proofs::Adopting::gathered))]
    pub(crate) fn mask<F: Fn(usize) -> bool>(self, test: F) -> usize
        requires { (i : ℕ) → i < self.n → F.pre test i }
        ensures { (p : ℕ → Bool) → AnswersAs self.n (F.post test) p → result ≡ gather self.n p }
    {
        let mut mask = 0usize;
        for i in 0..self.n {
            if test(i) {
                mask |= 1 << i;
            }
        }
        mask
    }

    // For each head the heads that pass the test with it, as a mask.
    // An array, 0 past n, and no list: `add_points` has one too, and notes there any parent below ten.
    pub(crate) fn masks<F: Fn(usize, usize) -> bool>(self, test: F) -> [usize; 10]
        requires { (i j : ℕ) → i < self.n → j < self.n → F.pre test i j }
        ensures { (p : ℕ → ℕ → Bool) → AnswersBothAs self.n (F.post test) p
            → (i : ℕ) → i < self.n → mask_of result i ≡ gather self.n (p i) }
    {
        let mut masks = [0usize; 10];
        for i in 0..self.n {
            masks[i] = self.mask(
                |j|
                    requires { F.pre test i j }
                { test(i, j) },
            );
        }
        masks
    }
}
