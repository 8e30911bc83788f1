// Sine and cosine of an f64 of magnitude at most 16, in fixed point: an angle is a whole number of
// units of 2^-59, a sine one of units of 2^-61, and floats stand only at the two ends. The recipe is
// a definition (specs/Sine.antt, over the crate series), and what it is worth a theorem
// (specs/SinePromise.antt).
ghost use Rattle.std.specs.Prelude.{◌≡◌, ◌≤◌, ◌^◌, true};
ghost use Rattle.series.specs.Kernel.{quarter, quarter_sine, reduced as reduced_of, half_turned};
ghost use Rattle.std.specs.Float.Ieee.{le};
ghost use Rattle.binary64.specs.Functions.{absolute};
ghost use Rattle.elementary.specs.Sine.{sine, cosine, fixed_sine, sixteen};
ghost use Rattle.elementary.specs.Sine.{angle as angle_of};

use crate::fixed::{horner, mulhi};
use binary64::abs;

// A quarter turn in units of 2^-59.
const QUARTER: u64 = 905502432259640355;

// The sine of a quarter turn in units of 2^-61.
const ONE: u64 = 2305843009213693952;

// 2^59: how many units of an angle are in 1.
const ANGLE_SCALE: f64 = 576460752303423488.0;

// 2^-61: the unit of a sine.
const SINE_UNIT: f64 = 4.336808689942018e-19;

// The alternating polynomial of the recipe, in units of 2^-62, from the highest power to the constant.
const COEFFICIENTS: [u64; 11] = [
    94649,
    9938138,
    849710816,
    57780335514,
    3033467614478,
    118305236964628,
    3253394016527258,
    58561092297490640,
    614891469123651721,
    3074457345618258603,
    4611686018427387904,
];

// The sine of an angle of the first quarter turn, at most 1.
fn quarter_sine(n: u64) -> u64
    requires { n ≤ quarter }
    ensures { result ≡ quarter_sine n }
{
    let m = 16 * n;
    mulhi(m, horner(&COEFFICIENTS, mulhi(m, m))).min(ONE)
}

// The angle of the first quarter turn that has the sine of w up to sign.
#[tactic(auto, unfolding(series::specs::Kernel::reduced))]
fn reduced(w: u64) -> u64
    ensures value { result ≡ reduced_of w }
    ensures bound { result ≤ quarter }
{
    let rest = w % QUARTER;
    if w / QUARTER % 2 == 0 {
        rest
    } else {
        QUARTER - rest
    }
}

// Whether the sine of w is negative.
#[tactic(auto, unfolding(series::specs::Kernel::half_turned))]
fn half_turned(w: u64) -> bool
    ensures { result ≡ half_turned w }
{
    w / QUARTER / 2 % 2 == 1
}

// The sine of w, or of -w, as a float. `negative` is a sign and no more: no value goes with either.
#[tactic(auto, unfolding(crate::specs::Sine::fixed_sine))]
fn fixed_sine(negative: bool, w: u64) -> f64
    ensures { result ≡ fixed_sine negative w }
{
    let size = std::num::nearest_u64_to_f64(quarter_sine(reduced(w))) * SINE_UNIT;
    if negative != half_turned(w) {
        -size
    } else {
        size
    }
}

// Whether v lies in the domain: |v| ≤ 16. A NaN does not.
fn inside(v: f64) -> bool
    ensures { result ≡ le (absolute v) sixteen }
{
    abs(v) <= 16.0
}

// |v| in units of 2^-59, cut.
fn angle(v: f64) -> u64
    requires { le (absolute v) sixteen ≡ true }
    ensures value { result ≡ angle_of v }
    ensures bound { result ≤ 2 ^ 63 }
{
    std::num::truncating_f64_to_u64(abs(v) * ANGLE_SCALE)
}

// The sine of v; +0 outside the domain.
#[tactic(auto, unfolding(crate::specs::Sine::sine))]
pub fn sin(v: f64) -> f64
    ensures { result ≡ sine v }
{
    if inside(v) {
        fixed_sine(v < 0.0, angle(v))
    } else {
        0.0
    }
}

// The cosine of v, the sine a quarter turn on; +0 outside the domain.
#[tactic(auto, unfolding(crate::specs::Sine::cosine))]
pub fn cos(v: f64) -> f64
    ensures { result ≡ cosine v }
{
    if inside(v) {
        fixed_sine(false, angle(v) + QUARTER)
    } else {
        0.0
    }
}
