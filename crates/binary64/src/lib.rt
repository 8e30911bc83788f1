// The small functions of f64 that the Rust calls as methods, each equal to its definition in specs/Functions.antt.
// The laws of f64 arithmetic that every crate above cites are in specs/ and proofs/.
#![tactic(auto)]

ghost use Rattle.std.specs.Prelude.{◌≡◌};
ghost use Rattle.binary64.specs.Units.{negative};
ghost use Rattle.std.specs.Float.{binary64};
ghost use Rattle.std.specs.Float.Ieee.{rem};
ghost use Rattle.binary64.specs.Functions.{absolute, signum_of, clamp_to_zero, larger_of, smaller_of};
ghost use Rattle.binary64.specs.Functions.{rem_euclid, Reducible};

// The sign bit: true for -0 too. A NaN has none, and gives false.
// A function around the method, which asks its caller that x is a number.
#[tactic(auto, using(crate::proofs::Functions::sign_is, crate::proofs::Functions::nan_sign))]
pub fn is_sign_negative(x: f64) -> bool
    ensures { result ≡ negative x }
{
    !x.is_nan() && x.is_sign_negative()
}

// |x|: the sign bit cleared. A NaN stays a NaN.
// A function around the method, whose contract says `float_with_sign false x`: each caller would unfold it.
#[tactic(auto, using(crate::proofs::Functions::absolute_is))]
pub fn abs(x: f64) -> f64
    ensures { result ≡ absolute x }
{
    x.abs()
}

// 1 or -1 by the sign bit; a NaN gives a NaN. Not `x.signum()`, which takes nearly twice as long.
pub fn signum(x: f64) -> f64
    ensures { result ≡ signum_of x }
{
    if x.is_nan() {
        x
    } else if x.is_sign_negative() {
        -1.0
    } else {
        1.0
    }
}

// x where it is above zero, and +0 otherwise. `x.max(0.0)` leaves the sign of a zero open.
pub fn clamp_to_zero(x: f64) -> f64
    ensures { result ≡ clamp_to_zero x }
{
    if 0.0 < x { x } else { 0.0 }
}

// The larger of two: a NaN gives way to the other, and of equal numbers the first is taken. `x.max(y)` and `x.min(y)`
// leave open which of two equal numbers they give, and so the sign of a zero.
pub fn larger(x: f64, y: f64) -> f64
    ensures { result ≡ larger_of x y }
{
    if x.is_nan() || x < y { y } else { x }
}

// The smaller of two: a NaN gives way to the other, and of equal numbers the first is taken.
pub fn smaller(x: f64, y: f64) -> f64
    ensures { result ≡ smaller_of x y }
{
    if x.is_nan() || y < x { y } else { x }
}

// The remainder of x by m, from that by twice m: it is that, or m less. No sum and no difference here is rounded.
fn reduced(x: f64, m: f64) -> f64
    requires { Reducible x m }
    ensures { result ≡ rem binary64 x m }
{
    let twice = m + m;
    let rest = if twice <= x { reduced(x, twice) } else { x };
    if m <= rest { rest - m } else { rest }
}

// x % m, worked out by doubling. Not `%` or `x.rem_euclid(m)`: a program with one links an `fmod` newer than the
// machine's C library may have.
fn exact_remainder(x: f64, m: f64) -> f64
    ensures { result ≡ rem binary64 x m }
{
    let by = abs(m);
    if !x.is_finite() || !(0.0 < by) {
        return f64::NAN;
    }
    if !m.is_finite() {
        return x;
    }
    let rest = reduced(abs(x), by);
    // Not `copysign`: its contract gives `float_with_sign`, as that of `abs`.
    if is_sign_negative(x) { -rest } else { rest }
}

// The remainder of x by m, plus m if that is below zero.
pub fn rem_euclid(x: f64, m: f64) -> f64
    ensures { result ≡ rem_euclid x m }
{
    let r = exact_remainder(x, m);
    if r < 0.0 { r + m } else { r }
}
