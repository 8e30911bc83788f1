// The calls of the C interface, which crate `watered_c` exports by these names: each calls one function of the crates
// below, and has its definition. What C hands over is numbers and lists, under the names that C has: so plans, heads
// and edits come as the numbers that they are, answers go as `u32`, an overlap goes through a `&mut f64` beside its
// answer, and a call has each of its lists as a parameter of its own.
#![tactic(auto)]

ghost use Rattle.std.specs.Prelude.{◌≡◌};
ghost use Rattle.elementary.specs.Root.{root, hypot};
ghost use Rattle.elementary.specs.Sine.{sine, cosine};
ghost use Rattle.elementary.specs.Arctangent.{atan2, acos, asin};

mod handed;
pub mod slopes;
pub mod tables;

// The correctly rounded square root; +0 outside its domain.
pub fn watered_root(x: f64) -> f64
    ensures { result ≡ root x }
{
    elementary::root::root(x)
}

// root(a * a + b * b), each step rounded.
pub fn watered_hypot(a: f64, b: f64) -> f64
    ensures { result ≡ hypot a b }
{
    elementary::root::hypot(a, b)
}

// The sine of an angle of magnitude at most 16; +0 outside.
pub fn watered_sin(v: f64) -> f64
    ensures { result ≡ sine v }
{
    elementary::sine::sin(v)
}

// The cosine of an angle of magnitude at most 16; +0 outside.
pub fn watered_cos(v: f64) -> f64
    ensures { result ≡ cosine v }
{
    elementary::sine::cos(v)
}

// The angle of the point (x, y), for magnitudes up to 2^20 that are not both zero; +0 outside.
pub fn watered_atan2(y: f64, x: f64) -> f64
    ensures { result ≡ atan2 y x }
{
    elementary::arctangent::atan2(y, x)
}

// atan2(root((1 - c) * (1 + c)), c) for c from -1 to 1; +0 outside.
pub fn watered_acos(c: f64) -> f64
    ensures { result ≡ acos c }
{
    elementary::arctangent::acos(c)
}

// atan2(c, root((1 - c) * (1 + c))) for c from -1 to 1; +0 outside.
pub fn watered_asin(c: f64) -> f64
    ensures { result ≡ asin c }
{
    elementary::arctangent::asin(c)
}
