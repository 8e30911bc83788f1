// The C interface, declared in include/watered.h: each export is a call of crate `watered` by its name, with the same
// clauses. It repeats that crate's functions, since a crate is a library or a static library: other crates call those
// of `watered`, and C calls these.
#![tactic(auto)]

ghost use Rattle.std.specs.Prelude.{◌≡◌};
ghost use Rattle.elementary.specs.Root.{root, hypot};
ghost use Rattle.elementary.specs.Sine.{sine, cosine};
ghost use Rattle.elementary.specs.Arctangent.{atan2, acos, asin};

pub mod slopes;
pub mod tables;

// The correctly rounded square root; +0 outside its domain.
#[unsafe(no_mangle)]
pub extern "C" fn watered_root(x: f64) -> f64
    ensures { result ≡ root x }
{
    watered::watered_root(x)
}

// root(a * a + b * b), each step rounded.
#[unsafe(no_mangle)]
pub extern "C" fn watered_hypot(a: f64, b: f64) -> f64
    ensures { result ≡ hypot a b }
{
    watered::watered_hypot(a, b)
}

// The sine of an angle of magnitude at most 16; +0 outside.
#[unsafe(no_mangle)]
pub extern "C" fn watered_sin(v: f64) -> f64
    ensures { result ≡ sine v }
{
    watered::watered_sin(v)
}

// The cosine of an angle of magnitude at most 16; +0 outside.
#[unsafe(no_mangle)]
pub extern "C" fn watered_cos(v: f64) -> f64
    ensures { result ≡ cosine v }
{
    watered::watered_cos(v)
}

// The angle of the point (x, y), for magnitudes up to 2^20 that are not both zero; +0 outside.
#[unsafe(no_mangle)]
pub extern "C" fn watered_atan2(y: f64, x: f64) -> f64
    ensures { result ≡ atan2 y x }
{
    watered::watered_atan2(y, x)
}

// atan2(root((1 - c) * (1 + c)), c) for c from -1 to 1; +0 outside.
#[unsafe(no_mangle)]
pub extern "C" fn watered_acos(c: f64) -> f64
    ensures { result ≡ acos c }
{
    watered::watered_acos(c)
}

// atan2(c, root((1 - c) * (1 + c))) for c from -1 to 1; +0 outside.
#[unsafe(no_mangle)]
pub extern "C" fn watered_asin(c: f64) -> f64
    ensures { result ≡ asin c }
{
    watered::watered_asin(c)
}
