// The square root of an f64, correctly rounded, and hypot (specs/Root.antt). The root's 53 digits are
// the whole number nearest to the root of a whole number of 105 or 106 digits: a guess by floats,
// which exact integers test, and the root digit by digit where that fails.
ghost use Rattle.std.specs.Prelude.{◌≡◌, ◌*◌, ◌^◌, ◌<◌, ◌≤◌, IfSome, from_bits};
ghost use Rattle.std.specs.Float.{binary64};
ghost use Rattle.binary64.specs.Units.{mag};
ghost use Rattle.elementary.specs.Root.{nearest_root, root as root_of, hypot as hypot_of};
ghost use Rattle.elementary.specs.RootSteps.{Near, Balanced, Leading};

// The bits of the positive infinity: those of the positive finite numbers lie below.
// By bits and not `is_finite`: the steps below need the bound on the bits, which its contract does not give.
const INFINITY: u64 = f64::to_bits(f64::INFINITY);

// 2^52: the first of a normal number's 53 digits, which its bits leave out.
const FIRST_DIGIT: u64 = 0x10_0000_0000_0000;

// The root of x; +0 where x is no number, infinite or below zero. The zeros are their own roots.
pub fn root(x: f64) -> f64
    ensures { result ≡ root_of x }
{
    if 0.0 < x {
        let bits = x.to_bits();
        if bits < INFINITY {
            PositiveBits { bits }.root()
        } else {
            0.0
        }
    } else if x == 0.0 {
        x
    } else {
        0.0
    }
}

// The root of the sum of two squares, each step rounded.
pub fn hypot(a: f64, b: f64) -> f64
    ensures { result ≡ hypot_of a b }
{
    root(a * a + b * b)
}

// A positive number of units (2^-1074) by its leading digits: digits * 2^lead / 2^52.
#[derive(Clone, Copy)]
struct Parts {
    digits: u64,
    lead: u64,
}

// The bits of a positive finite number.
#[derive(Clone, Copy)]
struct PositiveBits {
    bits: u64,
    ghost above: { 0 < bits },
    ghost finite: { bits < 2047 * 2 ^ 52 },
}

impl PositiveBits {
    // The leading digits of the number.
    fn split(self) -> Parts
        ensures { Leading (mag (from_bits binary64 self.bits)) result.digits result.lead }
    {
        let bits = self.bits;
        let field = bits >> 52;
        if field == 0 {
            let zeros = bits.leading_zeros();
            Parts {
                digits: bits << (zeros - 11),
                lead: u64::from(63 - zeros),
            }
        } else {
            Parts {
                digits: bits % FIRST_DIGIT + FIRST_DIGIT,
                lead: field + 51,
            }
        }
    }

    // The root of the number. Half the exponent is the root's, and an odd one goes to the radicand. The root's bits
    // are its exponent's field, less one, and its 53 digits, of which the first adds that one.
    fn root(self) -> f64
        ensures { result ≡ root_of (from_bits binary64 self.bits) }
    {
        let Parts { digits, lead } = self.split();
        let radicand = Radicand {
            m: digits << (lead % 2),
        };
        let digits = radicand.nearest(self.guess());
        f64::from_bits(((lead / 2 + 485) << 52) + digits)
    }

    // A guess at the root of the number. Nothing is promised of it: `settle` tests it. For a normal number its digits
    // are the root's, or one off. From a first guess in the bits r goes to 1 / root(x) and y to root(x) by Newton's
    // factor (3 - y * r) / 2, which is used without its half, so that both are 2, 16 and 8192 times as large, and the
    // 3 is 3, 12 and 768. They are off by at most 2^-4.8, then 2^-9, 2^-17, 2^-34; the last line takes up what
    // rounding left.
    fn guess(self) -> f64 {
        let x = f64::from_bits(self.bits);
        let mut r = f64::from_bits(0x5FE6_EB50_C7B5_37A9 - (self.bits >> 1));
        let mut y = x * r;
        for three in [3.0, 12.0] {
            let factor = three - y * r;
            r *= factor;
            y *= factor;
        }
        let factor = 768.0 - y * r;
        // 2^-14 and 2^-13
        let half = r * 0.00006103515625 * factor;
        let y = y * 0.0001220703125 * factor;
        y + half * (x - y * y)
    }
}

// A whole number m of 53 or 54 digits: the root of m * 2^52 has 53.
#[derive(Clone, Copy)]
struct Radicand {
    m: u64,
    ghost least: { 2 ^ 52 ≤ m },
    ghost below: { m < 2 ^ 54 },
}

impl Radicand {
    // The whole number nearest to the root of m * 2^52, from the digits of a guess; where these do not settle it,
    // digit by digit.
    fn nearest(self, guess: f64) -> u64
        ensures { result ≡ nearest_root 53 (self.m * 2 ^ 52) }
    {
        if 0.0 < guess
            && let Some(q) = self.settle(guess.to_bits() % FIRST_DIGIT + FIRST_DIGIT)
        {
            return q;
        }
        self.nearest_by_digits()
    }

    // The whole number nearest to the root of m * 2^52, digit by digit: each step takes two digits of the radicand and
    // gives one of the root. `root` is the whole part of the root of what was taken, `rest` what its square leaves.
    fn nearest_by_digits(self) -> u64
        ensures { result ≡ nearest_root 53 (self.m * 2 ^ 52) }
    {
        let mut digits = self.m << 10;
        let mut root: u64 = 0;
        let mut rest: u64 = 0;
        for _ in 0..53u32 {
            rest = rest * 4 + (digits >> 62);
            digits <<= 2;
            let square = root * 4 + 1;
            root *= 2;
            if square <= rest {
                rest -= square;
                root += 1;
            }
        }
        if rest <= root { root } else { root + 1 }
    }

    // The whole number nearest to the root of m * 2^52, if it is q or stands beside q.
    fn settle(self, q: u64) -> Option<u64>
        requires { (2 ^ 52 ≤ q) × (q < 2 ^ 53) }
        ensures { IfSome result (λ r. Near (self.m * 2 ^ 52) r) }
    {
        let Scales { square, radicand } = self.weigh(q)?;
        if radicand + q <= square {
            // the root is below the middle of q - 1 and q
            (square + 2 < radicand + q * 3).then_some(q - 1)
        } else if square + q < radicand {
            // the root is above the middle of q and q + 1
            (radicand <= square + q * 3 + 2).then_some(q + 1)
        } else {
            Some(q)
        }
    }

    // The square of q against m * 2^52, by exact products in halves: q * q is (high - 1) * 2^54 + low, and m * 2^52 is
    // m_high * 2^54 + (m % 4) * 2^52. None where they are too far apart.
    fn weigh(self, q: u64) -> Option<Scales>
        requires { q < 2 ^ 53 }
        ensures { IfSome result (λ s. Balanced (self.m * 2 ^ 52) (q * q) s.square s.radicand) }
    {
        let upper = q >> 27;
        let lower = q % 0x800_0000;
        let cross = upper * lower;
        let high = upper * upper + (cross >> 26) + 1;
        let low = ((cross % 0x400_0000) << 28) + lower * lower;
        let ahead = high.checked_sub(self.m >> 2)?;
        if 2 < ahead {
            return None;
        }
        Some(Scales {
            square: (ahead << 54) + low,
            radicand: (self.m % 4 + 4) << 52,
        })
    }
}

// q * q and m * 2^52, both less the same number.
#[derive(Clone, Copy)]
struct Scales {
    square: u64,
    radicand: u64,
}
