// Holds our functions against the stored list of the Rust's answers, with no Rust at hand. The list
// comes from standard input and was made by tests/differential/list. A line is a letter and numbers
// in hexadecimal, one space before each; f64s are their bits. What a line of each letter holds is
// said where it is compared; a line W has an angle (place 1) and the wrapped angle (2).
#![tactic(auto)]

ghost use Rattle.std.specs.Prelude.{◌≤◌};

mod clipped;
mod numbers;
mod outlines;
mod pair;
mod plans;
mod points;
mod sets;

use boundary::angles::wrap_angle;
use numbers::float;
use plans::Plan;
use std::io::{self, BufWriter, Read, Write};
use stored::counts::Counts;
use stored::line::Line;
use stored::numbers::same;

// What the lines of each letter hold.
const LETTERS: [(u8, &str); 13] = [
    (b'P', "P, pairs of circles"),
    (b'H', "H, plans"),
    (b'X', "X, boxes"),
    (b'I', "I, numbers of meeting points"),
    (b'Q', "Q, meeting points"),
    (b'N', "N, numbers of arcs"),
    (b'T', "T, arcs"),
    (b'R', "R, open areas"),
    (b'G', "G, open gradients"),
    (b'S', "S, spans of edges"),
    (b'K', "K, areas in the box"),
    (b'L', "L, areas in the box with gradients"),
    (b'W', "W, wrapped angles"),
];

// The place of the last number on a line, the plan having n heads. A gradient has three numbers a
// head, and four for the box.
// Bytes and no enum: each letter is matched at three places at most, and an enum would want its own
// match from bytes and an Option.
fn last_place(letter: u8, n: usize) -> usize
    requires { n ≤ 10 }
{
    match letter {
        b'P' => 22,
        b'H' | b'G' => 1 + n * 3,
        b'X' => 4,
        b'I' => 1,
        b'Q' | b'T' => 6,
        b'S' => 5,
        b'L' => 6 + n * 3,
        // N, R, K and W; a line of any other letter differs whatever stands on it
        _ => 2,
    }
}

// Whether every answer on a line that needs a plan is ours. A line that is about a set of heads has
// its mask first.
fn agrees_on_plan(line: &Line, plan: &Plan) -> bool {
    let words = &line.words;
    let first = words[1] as usize;
    match line.letter() {
        b'H' => true,
        b'X' => plan.bounds.is_some(),
        b'I' => plan.points.len() == first,
        b'Q' => points::same_point(&words[2..], first, &plan.points),
        _ => first >> plan.circles.len() == 0 && sets::agrees(line, first, plan),
    }
}

// Whether every answer on the line that was read is ours, the plan being the one after the line.
fn agrees(line: &Line, plan: Option<&Plan>) -> bool {
    let words = &line.words;
    let n = plan.map_or(0, |plan| plan.circles.len());
    line.last == last_place(line.letter(), n)
        && match line.letter() {
            b'P' => pair::agrees(words),
            b'W' => same(wrap_angle(float(words[1])), words[2]),
            _ => plan.is_some_and(|plan| agrees_on_plan(line, plan)),
        }
}

// How many lines of each letter there are, and in all. (Here and in `replay_tables`: in `stored`, over any letters, the
// contract would be longer than these lines.)
fn print_counts<W: Write>(out: &mut W, counts: &Counts) -> io::Result<()> {
    for (letter, what) in LETTERS {
        counts.print_letter(out, letter, what)?;
    }
    counts.print_sums(out)
}

// Reads the list to its end, a piece at a time, and prints the lines that differ and the counts. The loop
// stands here and in `replay_tables`, and not in `stored`: what it prints follows from answers that no
// contract names, so a public function could not say it.
fn replay<R: Read, W: Write>(list: &mut R, out: &mut W) -> io::Result<()> {
    let mut counts = Counts::none();
    let mut line = Line::begun();
    let mut plan = None;
    let mut buffer = [0; 65536];
    // A proved loop has to end: it counts up to a number that no list uses up.
    for _ in 0..u64::MAX {
        let n = list.read(&mut buffer)?;
        if n == 0 {
            break;
        }
        for &b in &buffer[..n] {
            if b != b'\n' {
                line.feed(b);
                continue;
            }
            plan = plans::after(&line, plan);
            let ours = agrees(&line, plan.as_ref());
            counts.count(out, line.letter(), ours)?;
            line = Line::begun();
        }
    }
    print_counts(out, &counts)
}

// (As in `replay_tables`: each program has its own `main`.)
fn main(rt: HostRuntime) -> io::Result<()> {
    let mut out = BufWriter::new(rt.alloc(), rt.stdout())?;
    replay(&mut rt.stdin(), &mut out)?;
    out.flush()
}
