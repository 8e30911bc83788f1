// The presence bytes of a table, where there is one for each row of at most ten heads.
ghost use Rattle.std.specs.Prelude.{◌≡◌, ◌≤◌, ◌^◌, length};

// The presence bytes of n heads, one a row; what stands beyond the 2^n rows is not looked at.
// Its bytes are read as a slice: a method for one row would have a `requires`, which no public function here has, or
// test each time that there is such a row.
#[derive(Clone, Copy)]
pub struct Presence<'a> {
    pub n: usize,
    pub bytes: &'a [u8],
    pub ghost few: { n ≤ 10 },
    pub ghost room: { 2 ^ n ≤ length bytes.now },
}

impl Presence<'_> {
    // How many rows there are. The minimum changes nothing: it keeps from the compiler that the bound is a power of
    // two, of which it would make a shift in each turn of a loop, and not vectorise it.
    #[tactic(auto, using(crate::proofs::Places::masks_le))]
    pub fn row_count(&self) -> usize
        ensures value { result ≡ 2 ^ self.now.n }
        ensures few { result ≤ 1024 }
    {
        (1usize << self.n).min(self.bytes.len())
    }
}
