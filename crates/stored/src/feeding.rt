// How a line of a stored list is fed and what it says. Apart from the struct, whose ghost field must not rest on
// specs/Line.antt.
ghost use Rattle.std.specs.Prelude.{◌≡◌};
ghost use Rattle.stored.specs.Line.{digit, begun, fed, letter};

use crate::line::Line;

// The value of a digit; of another byte its own code, which is no digit.
// Not `char::to_digit`: it takes small letters too, and the definition has another byte's code where that has none.
fn digit(b: u8) -> u64
    ensures { result ≡ digit b }
{
    match b {
        b'0'..=b'9' => u64::from(b - b'0'),
        b'A'..=b'F' => u64::from(b - b'A' + 10),
        _ => u64::from(b),
    }
}

impl Line {
    // A line of which nothing was read.
    // No derived `Default`: its contract says of an array that each element is 0, and not which list it is.
    pub fn begun() -> Line
        ensures { result ≡ begun }
    {
        Line {
            words: [0; 40],
            last: 0,
        }
    }

    // One byte more. A letter has one byte of eight bits, a number four bits a digit.
    pub fn feed(&mut self, b: u8)
        ensures { self.new ≡ fed self.old b }
    {
        let at = self.last;
        if b == b' ' {
            self.last = (at + 1).min(39);
        } else if at == 0 {
            self.words[0] = self.words[0] << 8 | u64::from(b);
        } else {
            self.words[at] = self.words[at] << 4 | digit(b);
        }
    }

    // The letter: 0, if the first place does not have just one. Tested against 128, which is no bound of a type.
    // 0 and no Option: the programs match the letter, and 0 is none that they have.
    pub fn letter(&self) -> u8
        ensures { result ≡ letter self.now }
    {
        let code = self.words[0];
        if code < 128 { code as u8 } else { 0 }
    }
}
