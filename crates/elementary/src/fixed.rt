// Fixed-point steps that the recipes of sine, cosine and atan2 share: the upper half of a product, and Horner's rule.
ghost use Rattle.std.specs.Prelude.{◌≡◌, ◌≤◌, IsTrue};
ghost use Rattle.series.specs.Kernel.{mulhi as upper_half};
ghost use Rattle.elementary.specs.FixedSteps.{from_last, rising};

// The upper 64 of the 128 bits of a product.
pub(crate) fn mulhi(a: u64, b: u64) -> u64
    ensures value { result ≡ upper_half a b }
    ensures bound { result ≤ b }
{
    ((u128::from(a) * u128::from(b)) >> 64) as u64
}

// Horner's rule in z on coefficients from that of the highest power to the constant: each less what the ones before it
// gave, times z, cut.
pub(crate) fn horner<const N: usize>(coefficients: &[u64; N], z: u64) -> u64
    requires { IsTrue (rising coefficients.now) }
    ensures { result ≡ from_last coefficients.now z }
{
    let mut h = 0;
    for &c in coefficients {
        h = c - mulhi(z, h);
    }
    h
}
