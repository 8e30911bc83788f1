// Numbers as the list has them: whole ones, and finite f64s by their bits. Where both stand on a line,
// a whole number of ours goes as the f64 that has its bits, so that one loop compares all.
use stored::numbers::same;

// The finite f64 with these bits. The list has no other. (By the exponent's field and not by `is_finite`: that the bits
// are no NaN's is asked before `from_bits` is called.)
pub(crate) fn float(bits: u64) -> f64 {
    if (bits >> 52) % 2048 < 2047 {
        f64::from_bits(bits)
    } else {
        0.0
    }
}

// Whether a line has our numbers first in these. Beyond its last number it has +0. (Here and in `replay_tables`: in
// `stored` its contract would be longer than this line.)
pub(crate) fn same_all(ours: &[f64], words: &[u64]) -> bool {
    ours.len() <= words.len() && ours.iter().zip(words).all(|(x, bits)| same(*x, *bits))
}
