// atan2 of two f64 of magnitude at most 2^20, in fixed point: a tangent is a whole number of units of 2^-64, an angle
// one of units of 2^-62, and floats stand only at the two ends. The recipe is a definition (specs/Arctangent.antt, over
// the crate cells), and what it is worth a theorem (specs/ArctangentPromise.antt).
ghost use Rattle.std.specs.Prelude.{◌≡◌, ◌≤◌};
ghost use Rattle.cells.specs.Arc.{arc as arc_of, quarter_turn};
ghost use Rattle.elementary.specs.Arctangent.{tangent as tangent_of, first_quarter, upper_half, in_domain};
ghost use Rattle.elementary.specs.Arctangent.{atan2 as atan2_of};
ghost use Rattle.elementary.specs.Arctangent.{cofunction as cofunction_of, in_unit, acos as acos_of, asin as asin_of};
ghost use Rattle.elementary.specs.ArctangentSteps.{Ordered, InQuarter};

use crate::fixed::{horner, mulhi};
use binary64::{abs, is_sign_negative};

// A quarter of a turn and half a turn in units of 2^-62. Each is rounded: the half is not twice the quarter.
const QUARTER_TURN: u64 = 7244019458077122842;

const HALF_TURN: u64 = 14488038916154245685;

// The largest magnitude of a coordinate, 2^20.
const LARGEST: f64 = 1048576.0;

// 2^64: how many units of a tangent are in 1.
const TANGENT_SCALE: f64 = 18446744073709551616.0;

// 2^-62: the unit of an angle.
const ANGLE_UNIT: f64 = 2.168404344971009e-19;

// The alternating polynomial of the recipe, in units of 2^-63, from the highest power to the constant.
const COEFFICIENTS: [u64; 22] = [
    76258801422460,
    920345952552169,
    5283079048034907,
    19282690888461833,
    50588156996915501,
    102582479098485043,
    169588636552604808,
    239319809187185614,
    301061589416868444,
    351685421057711726,
    395024533151515007,
    437529649618516332,
    485066708308610664,
    542486206537835675,
    614882812031894717,
    709489302659419780,
    838488306982283515,
    1024819112371996894,
    1317624576611095641,
    1844674407369678347,
    3074457345618250711,
    9223372036854775800,
];

// The angle whose tangent is n / 2^64.
fn arc(n: u64) -> u64
    ensures value { result ≡ arc_of n }
    ensures bound { result ≤ quarter_turn }
{
    mulhi(n, horner(&COEFFICIENTS, mulhi(n, n))) / 2
}

// low / high in units of 2^-64.
#[tactic(auto, using(crate::proofs::arctangent::Slope::in_u64), unfolding(crate::specs::Arctangent::tangent))]
fn tangent(low: f64, high: f64) -> u64
    requires { Ordered low high }
    ensures { result ≡ tangent_of low high }
{
    let q = low / high;
    if q < 1.0 {
        std::num::truncating_f64_to_u64(q * TANGENT_SCALE)
    } else {
        u64::MAX
    }
}

// The angle of the point (x, y), neither below zero.
#[tactic(auto, using(crate::proofs::arctangent::Slope::ordered), unfolding(crate::specs::Arctangent::first_quarter))]
fn first_quarter(x: f64, y: f64) -> u64
    requires { InQuarter x y }
    ensures value { result ≡ first_quarter x y }
    ensures bound { result ≤ quarter_turn }
{
    if x < y {
        QUARTER_TURN - arc(tangent(x, y))
    } else {
        arc(tangent(y, x))
    }
}

// The angle of the point (x, y), y not below zero.
#[tactic(auto, unfolding(crate::specs::Arctangent::upper_half))]
fn upper_half(x: f64, size: f64, y: f64) -> u64
    requires { InQuarter size y }
    ensures { result ≡ upper_half x size y }
{
    let first = first_quarter(size, y);
    if is_sign_negative(x) {
        HALF_TURN - first
    } else {
        first
    }
}

// Whether atan2 is promised for a point of these magnitudes.
#[tactic(auto, unfolding(crate::specs::Arctangent::in_domain))]
fn in_domain(width: f64, height: f64) -> bool
    ensures { result ≡ in_domain width height }
{
    width <= LARGEST && height <= LARGEST && (0.0 < width || 0.0 < height)
}

// The angle t of the point (x, y), from -PI to PI: |x×S - y×C| ≤ 2^-40 × (|x|+|y|) and x×C + y×S > 0, with the 40-term
// sums S and C of the sine and the cosine at t. +0 where both are zero, where a magnitude is above 2^20, and where x or
// y is no number.
#[tactic(auto, unfolding(crate::specs::Arctangent::atan2))]
pub fn atan2(y: f64, x: f64) -> f64
    ensures { result ≡ atan2_of y x }
{
    let width = abs(x);
    let height = abs(y);
    if !in_domain(width, height) {
        return 0.0;
    }
    let t = std::num::nearest_u64_to_f64(upper_half(x, width, height)) * ANGLE_UNIT;
    // Not `copysign`: its contract gives `float_with_sign`, as that of `abs`.
    if is_sign_negative(y) { -t } else { t }
}

// root((1-c)×(1+c))
fn cofunction(c: f64) -> f64
    ensures { result ≡ cofunction_of c }
{
    crate::root::root((1.0 - c) * (1.0 + c))
}

// Whether c is a cosine: -1 ≤ c ≤ 1.
#[tactic(auto, using(binary64::proofs::Ranges::ranges))]
fn in_unit(c: f64) -> bool
    ensures { result ≡ in_unit c }
{
    (-1.0..=1.0).contains(&c)
}

// The angle from 0 to PI whose cosine is c; +0 where c is below -1, above 1, or no number.
#[tactic(auto, unfolding(crate::specs::Arctangent::acos))]
pub fn acos(c: f64) -> f64
    ensures { result ≡ acos_of c }
{
    if in_unit(c) {
        atan2(cofunction(c), c)
    } else {
        0.0
    }
}

// The angle from -PI/2 to PI/2 whose sine is c; +0 where c is below -1, above 1, or no number.
#[tactic(auto, unfolding(crate::specs::Arctangent::asin))]
pub fn asin(c: f64) -> f64
    ensures { result ≡ asin_of c }
{
    if in_unit(c) {
        atan2(c, cofunction(c))
    } else {
        0.0
    }
}
