// Holds whole tables of plans, worked out by crates `table` and `gradients`, and overlaps against a stored
// list, with no Rust at hand. The list comes from standard input and was made by tests/tables/list from the
// Rust's answers; those of plans with identical heads by the Rust's functions from the meeting points that
// document 01 leaves. A line is a letter and numbers in hexadecimal, one space before each; f64s are their
// bits. What a line of each letter holds is said in tables.rt. tests/stored/run shows that a changed bit is
// seen.
#![tactic(auto)]

mod numbers;
mod rows;
mod tables;

use std::io::{self, BufWriter, Read, Write};
use stored::counts::Counts;
use stored::line::Line;
use tables::Held;

// What the lines of each letter hold.
const LETTERS: [(u8, &str); 8] = [
    (b'H', "H, plans"),
    (b'D', "D, sets"),
    (b'R', "R, rows in the box"),
    (b'U', "U, open rows"),
    (b'G', "G, exclusives in the box with gradients"),
    (b'F', "F, open exclusives with gradients"),
    (b'O', "O, overlaps of all heads"),
    (b'M', "M, overlaps of a mask"),
];

// How many lines of each letter there are, and in all. (Here and in `replay`: in `stored`, over any letters, the
// contract would be longer than these lines.)
fn print_counts<W: Write>(out: &mut W, counts: &Counts) -> io::Result<()> {
    for (letter, what) in LETTERS {
        counts.print_letter(out, letter, what)?;
    }
    counts.print_sums(out)
}

// Reads the list to its end, a piece at a time, and prints the lines that differ and the counts. The loop
// stands here and in `replay`, and not in `stored`: what it prints follows from answers that no contract names,
// so a public function could not say it.
fn replay<R: Read, W: Write>(list: &mut R, out: &mut W) -> io::Result<()> {
    let mut counts = Counts::none();
    let mut line = Line::begun();
    let mut held = Held::none();
    let mut buffer = [0; 65536];
    // A proved loop has to end: it counts up to a number that no list uses up.
    for _ in 0..u64::MAX {
        let n = list.read(&mut buffer)?;
        if n == 0 {
            break;
        }
        for &b in &buffer[..n] {
            if b != b'\n' {
                line.feed(b);
                continue;
            }
            if line.letter() == b'H' {
                held.hold(&line.words);
            }
            let ours = held.agrees(&line);
            counts.count(out, line.letter(), ours)?;
            line = Line::begun();
        }
    }
    print_counts(out, &counts)
}

// (As in `replay`: each program has its own `main`.)
fn main(rt: HostRuntime) -> io::Result<()> {
    let mut out = BufWriter::new(rt.alloc(), rt.stdout())?;
    replay(&mut rt.stdin(), &mut out)?;
    out.flush()
}
