// Sets of heads as masks: a mask has bit i set if head i is in the set. A usize has 64 bits, so a head of 64 or more is
// in no mask. All but the test for a subset is written where it is used, by shifts and masks; the laws of specs/, which
// hold for every width, are cited there.
#![tactic(auto)]

ghost use Rattle.std.specs.Prelude.{◌≡◌};
ghost use Rattle.masks.specs.Mask.{subset};

// Whether every head of a is in b.
#[tactic(auto, using(crate::specs::Subset::and_test))]
pub fn is_subset(a: usize, b: usize) -> bool
    ensures { result ≡ subset 64 a b }
{
    a & b == a
}
