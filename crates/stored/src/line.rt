// A line of a stored list: a letter and numbers in hexadecimal, one space before each. It is fed a byte at a time.
ghost use Rattle.std.specs.Prelude.{◌<◌};

// Place 0 has the code of the line's letter, the places from 1 on its numbers. `last` is the place of the last
// one so far: it stays at 39, if there are more than that.
// An array and `last`, and no list of the numbers read: the programs that read lines take numbers at fixed places, and
// one that a line lacks is 0.
#[derive(Clone, Copy)]
pub struct Line {
    pub words: [u64; 40],
    pub last: usize,
    pub ghost within: { last < 40 },
}
