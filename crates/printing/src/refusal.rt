// The line of a refusal (specs/Rows.antt).
ghost use Rattle.printing.specs.Text.{Printed};
ghost use Rattle.printing.specs.Rows.{refusal_line};

use crate::text::Cursor;

// `refused N at P`, at the front of `out`; gives how many bytes the line has.
#[tactic(auto, using(crate::proofs::Digits::decimal_few))]
pub fn print_refusal(number: u64, offset: u64, out: &mut [u8]) -> usize
    ensures { Printed (refusal_line number offset) out.old out.new result }
{
    let mut text = Cursor { out, at: 0 };
    text.put_word(b"refused ");
    text.put_decimal(number);
    text.put_word(b" at ");
    text.put_decimal(offset);
    text.put_byte(b'\n');
    text.at
}
