// The lines of a list, counted, and what is printed of them.
ghost use Rattle.std.specs.Prelude.{◌≡◌, ◌++◌, ◌∷◌, [], OnOk, codes, cond, get_or};
ghost use Rattle.std.specs.Fmt.{decimal};
ghost use Rattle.std.specs.Io.KnownBytes.{Appends};
ghost use Rattle.stored.specs.Counts.{none, counted, told};

use std::io;
use std::io::Write;

// How many lines were read, by letter and in all, and on how many of them an answer differs.
// By letter in an array, which needs no heap.
#[derive(Clone, Copy)]
pub struct Counts {
    pub by_letter: [u64; 128],
    pub lines: u64,
    pub differing: u64,
}

fn name_differing<W: Write>(out: &mut W, line: u64) -> io::Result<()>
    ensures { OnOk result (Appends (W.contents out.old) (W.contents out.new)
        (codes "differs: line " ++ decimal line ++ 10 ∷ [])) }
{
    writeln!(out, "differs: line {line}")
}

impl Counts {
    // No line.
    // No derived `Default`: its contract says of an array that each element is 0, and not which list it is.
    pub fn none() -> Counts
        ensures { result ≡ none }
    {
        Counts {
            by_letter: [0; 128],
            lines: 0,
            differing: 0,
        }
    }

    // One line more. One that differs is named: whether it agrees is all that is known of it here.
    pub fn count<W: Write>(&mut self, out: &mut W, letter: u8, agrees: bool) -> io::Result<()>
        ensures counted { self.new ≡ counted self.old letter agrees }
        ensures told { OnOk result (Appends (W.contents out.old) (W.contents out.new) (told self.old agrees)) }
    {
        self.lines = self.lines.wrapping_add(1);
        // No `get_mut`: tried, and the proof did not close, since its contract does not say how the array ends.
        if letter < 128 {
            let at = usize::from(letter);
            self.by_letter[at] = self.by_letter[at].wrapping_add(1);
        }
        if agrees {
            return Ok(());
        }
        self.differing = self.differing.wrapping_add(1);
        name_differing(out, self.lines)
    }

    // How many lines have this letter, which stand for `what`.
    pub fn print_letter<W: Write>(&self, out: &mut W, letter: u8, what: &str) -> io::Result<()>
        ensures { OnOk result (Appends (W.contents out.old) (W.contents out.new)
            (decimal (get_or self.now.by_letter letter 0) ++ 32 ∷ what.now ++ 10 ∷ [])) }
    {
        let n = self
            .by_letter
            .get(usize::from(letter))
            .copied()
            .unwrap_or(0);
        writeln!(out, "{n} {what}")
    }

    // How many lines there are, and how many differ.
    pub fn print_sums<W: Write>(&self, out: &mut W) -> io::Result<()>
        ensures { OnOk result (Appends (W.contents out.old) (W.contents out.new)
            (decimal self.now.lines ++ codes " lines, "
            ++ decimal self.now.differing ++ codes " differ" ++ 10 ∷ [])) }
    {
        let Counts {
            lines,
            differing,
            ..
        } = *self;
        writeln!(out, "{lines} lines, {differing} differ")
    }
}
