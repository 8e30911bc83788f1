// Numbers as the list has them: those with a sign by 32 bits, and the sets of a line D.

// A whole number with a sign, by its 32 lowest bits. (A cast may lose no bits, so they are taken first.)
pub(crate) fn signed(word: u64) -> i32 {
    ((word % 0x1_0000_0000) as u32).cast_signed()
}

// The presence byte of mask s by the sets of a line D, 64 of them to a number: 1 for a set. (A byte, as the tables
// have.)
pub(crate) fn listed(sets: &[u64], s: usize) -> u8 {
    sets.get(s / 64)
        .map_or(0, |masks| u8::from((masks >> (s % 64)) & 1 == 1))
}
