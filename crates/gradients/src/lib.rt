// The exclusives of a plan with their gradients, in lent slices, with the box and without it: checks first, then the
// rows. Rests on specs/Step.antt.
// Two bodies: they share the checks alone, which are one call. One body over a box or none would need the rows of a
// plan stated a third time, for either. Three slices, as the C interface lends them.
#![tactic(auto)]

ghost use Rattle.std.specs.Prelude.{◌≡◌, [], ◌∷◌};
ghost use Rattle.plan.specs.Table.{lent_by};
ghost use Rattle.areas.specs.Sets.{plan_sets};
ghost use Rattle.gradients.specs.Step.{gradient_slices, step_to, clipped_step, open_step};

use diagram::gradients::{
    compute_exclusive_regions_clipped_with_gradient,
    compute_exclusive_regions_with_gradient_circles,
};
use drawn::{box_of, plan_circles};
use plan::check::check_call;
use plan::{Answer, Gradients, Lent, Plan};

// What a call over these slices lends. Apart from `lent_by` of `table`, which is over four lengths and no gradients:
// one for both would take an array of lengths and fold it, where these take `min`.
fn lent_by(presence: usize, exclusives: usize, gradients: usize) -> Lent
    ensures { result ≡ lent_by (presence ∷ exclusives ∷ []) gradients }
{
    Lent {
        rows: presence.min(exclusives),
        gradients,
    }
}

// The exclusives of a plan in its box with their gradients: row S at index S, its gradient of 3n + 4 numbers from
// S * (3n + 4) on: by x, y and radius of each head, then by the box's centre x, centre y, ln(width·height),
// ln(width/height). Absent rows have byte 0 and +0 throughout. Refused, every slice is as it was; what stands beyond
// row 2^n - 1 stays.
#[tactic(auto, unfolding(crate::specs::Step::clipped_step))]
pub fn gradients(
    plan: Plan,
    presence: &mut [u8],
    exclusives: &mut [f64],
    gradients: &mut [f64],
) -> Answer
    ensures { step_to (gradient_slices presence.new exclusives.new gradients.new) result
        ≡ clipped_step plan_sets plan (gradient_slices presence.old exclusives.old gradients.old) }
{
    let lent = lent_by(presence.len(), exclusives.len(), gradients.len());
    check_call(plan, Gradients::Clipped, lent)?;
    let circles = plan_circles(plan);
    let container = box_of(plan.ground);
    // The plan's checks have asked for the same room.
    let _ = compute_exclusive_regions_clipped_with_gradient(
        &circles, container, presence, exclusives, gradients,
    );
    Ok(())
}

// The same without the box, whose fields are checked all the same: row 0 is absent, and a gradient has 3n numbers.
#[tactic(auto, unfolding(crate::specs::Step::open_step))]
pub fn open_gradients(
    plan: Plan,
    presence: &mut [u8],
    exclusives: &mut [f64],
    gradients: &mut [f64],
) -> Answer
    ensures { step_to (gradient_slices presence.new exclusives.new gradients.new) result
        ≡ open_step plan_sets plan (gradient_slices presence.old exclusives.old gradients.old) }
{
    let lent = lent_by(presence.len(), exclusives.len(), gradients.len());
    check_call(plan, Gradients::Open, lent)?;
    let circles = plan_circles(plan);
    // The plan's checks have asked for the same room.
    let _ = compute_exclusive_regions_with_gradient_circles(
        &circles, presence, exclusives, gradients,
    );
    Ok(())
}
