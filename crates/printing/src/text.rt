// A text put into a lent slice, byte by byte: `put`, specs/Text.antt. What the slice has no place for is dropped, so no
// function here asks anything of its length. Not by `write!`: where that gives an error, no clause says what was
// written, and these calls cannot fail.
ghost use Rattle.std.specs.Prelude.{◌≡◌, [], ◌∷◌, ◌+◌, ◌-◌, ◌^◌, ◌≤◌, ◌<◌, length};
ghost use Rattle.printing.specs.Text.{digits, decimal, Advances};
ghost use Rattle.printing.specs.Text.{glyph as spec·glyph};

// The byte of a digit. No `char::from_digit`: it gives small letters, and capitals are wanted.
fn glyph(d: u64) -> u8
    requires { d < 16 }
    ensures { result ≡ spec·glyph d }
{
    if d < 10 {
        b'0' + d as u8
    } else {
        b'A' + (d as u8 - 10)
    }
}

// A lent slice, and the index of the next byte, which may be past the slice's end.
// That `at` does not wrap is asked by each function: by how many bytes differs, so no field holds it.
#[derive(Drop)]
pub(crate) struct Cursor<'a> {
    pub out: &'a mut [u8],
    pub at: usize,
}

impl Cursor<'_> {
    // One byte, if the slice has a place for it.
    pub(crate) fn put_byte(&mut self, b: u8)
        requires { self.old.at + 1 < 2 ^ 64 }
        ensures { Advances (b ∷ []) self.old self.new }
    {
        // No `get_mut`: its contract does not say how the slice ends, so the proof would not close.
        if self.at < self.out.len() {
            self.out[self.at] = b;
        }
        self.at += 1;
    }

    // The bytes of a word.
    pub(crate) fn put_word(&mut self, word: &[u8])
        requires { self.old.at + length word.now < 2 ^ 64 }
        ensures { Advances word.now self.old self.new }
    {
        for b in word {
            self.put_byte(*b);
        }
    }

    // The last k digits of n, the highest first.
    pub(crate) fn put_digits(&mut self, n: u64, base: u64, k: u32)
        requires room { self.old.at + k < 2 ^ 64 }
        requires base { (2 ≤ base) × (base ≤ 16) }
        requires top { base ^ (k - 1) < 2 ^ 64 }
        ensures { Advances (digits base k n) self.old self.new }
    {
        for i in (0..k).rev() {
            self.put_byte(glyph(n / base.pow(i) % base));
        }
    }

    // A number in base ten.
    pub(crate) fn put_decimal(&mut self, n: u64)
        requires { self.old.at + 20 < 2 ^ 64 }
        ensures { Advances (decimal n) self.old self.new }
    {
        self.put_digits(n, 10, n.max(1).ilog10() + 1);
    }
}
