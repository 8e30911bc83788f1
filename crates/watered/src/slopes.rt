// The calls of the C interface for exclusives with their gradients, and for what all heads of a plan water together.
// Each makes the plan of what C hands over, calls a crate below, and gives the answer's number. Those with and without
// the box are two, as C has two names.
ghost use Rattle.std.specs.Prelude.{◌≡◌};
ghost use Rattle.areas.specs.Sets.{plan_sets};
ghost use Rattle.gradients.specs.Step.{gradient_slices, clipped_step, open_step};
ghost use Rattle.plan.specs.Checks.{plan_answer};
ghost use Rattle.plan.specs.Table.{answer_number};
ghost use Rattle.watered.specs.Handed as spec;
ghost use Rattle.watered.specs.Overlap.{overlap_left};

use crate::handed::{number_of, plan_of};
use drawn::plan_circles;
use overlaps::overlaps::compute_overlaps_circles;
use plan::check::check;

// The exclusives of a plan in its box with their gradients: presence bytes and numbers of rows 0 to 2^n - 1, and 3n + 4
// gradient numbers a row. The answer is 0, or the refusal's number, which writes nothing.
pub fn watered_gradients(
    n: usize,
    sides: &[i32; 4],
    heads: &[i32; 30],
    presence: &mut [u8],
    exclusives: &mut [f64],
    gradients: &mut [f64],
) -> u32
    ensures value { result
        ≡ answer_number (clipped_step plan_sets (spec.plan_of n sides.now heads.now)
        (gradient_slices presence.old exclusives.old gradients.old)).answer }
    ensures gradients_after { gradient_slices presence.new exclusives.new gradients.new
        ≡ (clipped_step plan_sets (spec.plan_of n sides.now heads.now)
        (gradient_slices presence.old exclusives.old gradients.old)).left }
{
    let plan = plan_of(n, sides, heads);
    number_of(gradients::gradients(plan, presence, exclusives, gradients))
}

// The same without the box, which is checked all the same: row 0 is absent, and there are 3n gradient numbers a row.
pub fn watered_open_gradients(
    n: usize,
    sides: &[i32; 4],
    heads: &[i32; 30],
    presence: &mut [u8],
    exclusives: &mut [f64],
    gradients: &mut [f64],
) -> u32
    ensures value { result
        ≡ answer_number (open_step plan_sets (spec.plan_of n sides.now heads.now)
        (gradient_slices presence.old exclusives.old gradients.old)).answer }
    ensures gradients_after { gradient_slices presence.new exclusives.new gradients.new
        ≡ (open_step plan_sets (spec.plan_of n sides.now heads.now)
        (gradient_slices presence.old exclusives.old gradients.old)).left }
{
    let plan = plan_of(n, sides, heads);
    number_of(gradients::open_gradients(plan, presence, exclusives, gradients))
}

// What all heads of the plan but the closed ones water together, without the box, which is checked all the same. The
// answer is 0, or the refusal's number, which leaves `overlap`.
pub fn watered_overlap(n: usize, sides: &[i32; 4], heads: &[i32; 30], overlap: &mut f64) -> u32
    ensures value { result ≡ answer_number (plan_answer (spec.plan_of n sides.now heads.now)) }
    ensures overlap_after { overlap.new ≡ overlap_left (spec.plan_of n sides.now heads.now) overlap.old }
{
    let plan = plan_of(n, sides, heads);
    let answer = check(plan);
    if answer.is_ok() {
        *overlap = compute_overlaps_circles(&plan_circles(plan));
    }
    number_of(answer)
}
