// The lines of a table (specs/Rows.antt).
ghost use Rattle.std.specs.Prelude.{◌≡◌, ◌&&◌, ◌+◌, ◌*◌, ◌^◌, ◌<◌, eqb, get_or};
ghost use Rattle.std.specs.Int.Count.{ones};
ghost use Rattle.std.specs.Float.{nan, binary64};
ghost use Rattle.std.specs.Float.Ieee.{to_bits};
ghost use Rattle.masks.specs.Presence.{stands};
ghost use Rattle.printing.specs.Text.{Advances, Printed};
ghost use Rattle.printing.specs.Rows.{line_of, level_lines, table_lines};

use crate::text::Cursor;

// Every NaN is printed with these bits.
const NAN_BITS: u64 = 0x7FF8_0000_0000_0000;

// Whether row s is present and has c heads.
fn is_row(presence: &[u8], c: u32, s: usize) -> bool
    ensures { result ≡ (stands presence.now s && eqb (ones s) c) }
{
    presence.get(s) == Some(&1) && s.count_ones() == c
}

// The bits of number s.
fn bits_at(numbers: &[f64], s: usize) -> u64
    ensures { result ≡ to_bits binary64 (get_or numbers.now s nan) }
{
    match numbers.get(s) {
        Some(number) if !number.is_nan() => number.to_bits(),
        _ => NAN_BITS,
    }
}

// One line.
#[tactic(auto, using(crate::proofs::Digits::length_digits))]
fn put_line(text: &mut Cursor<'_>, mask: usize, bits: u64)
    requires { text.old.at + 21 < 2 ^ 64 }
    ensures { Advances (line_of mask bits) text.old text.new }
{
    text.put_digits(mask as u64, 16, 3);
    text.put_byte(b' ');
    text.put_digits(bits, 16, 16);
    text.put_byte(b'\n');
}

// The lines of the rows of c heads below row `masks`.
// Not `rows_in_order` of `exclusive`: here the presence bytes may be fewer than the rows.
fn put_level(text: &mut Cursor<'_>, presence: &[u8], numbers: &[f64], c: u32, masks: usize)
    requires { text.old.at + 21 * masks < 2 ^ 64 }
    ensures { Advances (level_lines presence.now numbers.now c masks) text.old text.new }
{
    for s in 0..masks {
        if is_row(presence, c, s) {
            put_line(text, s, bits_at(numbers, s));
        }
    }
}

// The lines of a table of n heads, at the front of `out`; gives how many bytes they have. Above ten heads there is no
// table, which has 0 bytes.
pub fn print_rows(presence: &[u8], numbers: &[f64], n: usize, out: &mut [u8]) -> usize
    ensures { Printed (table_lines n presence.now numbers.now) out.old out.new result }
{
    if 10 < n {
        return 0;
    }
    let mut text = Cursor { out, at: 0 };
    for c in 0..=n {
        put_level(&mut text, presence, numbers, c as u32, 1 << n);
    }
    text.at
}
