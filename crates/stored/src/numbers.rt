// A number of a list that is an f64 by its bits.
ghost use Rattle.std.specs.Prelude.{◌≡◌};
ghost use Rattle.stored.specs.Numbers.{same};

// Whether x has these bits. A NaN has none.
#[tactic(auto, using(crate::proofs::Itself::equals_itself))]
pub fn same(x: f64, bits: u64) -> bool
    ensures { result ≡ same x bits }
{
    !x.is_nan() && x.to_bits() == bits
}
