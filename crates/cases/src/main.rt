// Runs the plan library over a list of trials from standard input, up to 65,536 bytes, and prints every answer. Each
// trial is a plan file (0, its length in two bytes, its bytes) or a call in memory (1, n, an edit's head number, 37
// numbers of four bytes: the box, ten heads, the edit's x, y and radius; a byte for the gradients that the call writes,
// 0 for none, 1 for rows in the box, 2 for rows without it; and two numbers of two bytes: rows and gradients lent).
// Numbers are little-endian. The stored input and what it must print are worked out by tests/plan/trials.py from
// document 01.
#![tactic(auto)]

ghost use Rattle.std.specs.Prelude.{◌≡◌, ◌∷◌, ◌<◌, ◌≤◌, length, false, IfOk, OnOk};
ghost use Rattle.std.specs.Int.{w32, cast_unsigned};
ghost use Rattle.std.specs.Fmt.{digits};
ghost use Rattle.std.specs.Io.KnownBytes.{Appends};

use file::reader::{Completed, Reader};
use file::{fields, reader};
use heads::Head;
use plan::{
    Answer, Edit, Gradients, Ground, Lent, Plan, answer_number, answer_offset, book, check,
};
use std::io::{BufWriter, Read, Write};
use std::{array, io};

// The bytes of a call in memory, after the one that says what it is.
const CALL: usize = 155;

// Byte i, and 0 past the end. Numbers are read by their place: a call has a fixed form, and what a cut list lacks is 0.
fn byte_at(s: &[u8], i: usize) -> u8 {
    s.get(i).copied().unwrap_or(0)
}

// The number of two bytes at i. The bound is any from which i + 1 does not wrap.
fn short_at(s: &[u8], i: usize) -> usize
    requires { i < 1000000 }
    ensures { result < 65536 }
{
    usize::from(u16::from_le_bytes([byte_at(s, i), byte_at(s, i + 1)]))
}

// The number of four bytes at i. The bound is any from which i + 3 does not wrap.
fn int_at(s: &[u8], i: usize) -> i32
    requires { i < 1000000 }
{
    fields::number32(
        byte_at(s, i),
        byte_at(s, i + 1),
        byte_at(s, i + 2),
        byte_at(s, i + 3),
    )
}

// A space and the bits, in hexadecimal with no zero in front.
fn print_int<W: Write>(out: &mut W, z: i32) -> io::Result<()>
    ensures { let said = 32 ∷ digits 16 false (cast_unsigned w32 z) in
        OnOk result (Appends (W.contents out.old) (W.contents out.new) said) }
{
    write!(out, " {z:x}")
}

// Each number as `print_int` has it.
fn print_ints<W: Write>(out: &mut W, numbers: &[i32]) -> io::Result<()> {
    for z in numbers {
        print_int(out, *z)?;
    }
    Ok(())
}

// Plans and edits are printed here and not by a Display of theirs: the form is this program's own.
fn print_plan<W: Write>(out: &mut W, plan: Plan) -> io::Result<()> {
    write!(out, "plan {}", plan.n)?;
    let Ground {
        x,
        y,
        width,
        height,
    } = plan.ground;
    print_ints(out, &[x, y, width, height])?;
    for h in plan.heads {
        print_ints(out, &[h.x, h.y, h.radius])?;
    }
    out.write_all(b"\n")
}

// An edit in one line: the head's number, then its x, y and radius.
fn print_edit<W: Write>(out: &mut W, edit: Edit) -> io::Result<()> {
    write!(out, "edit {}", edit.head)?;
    print_ints(out, &[edit.x, edit.y, edit.radius])?;
    out.write_all(b"\n")
}

// Taken, or refused with number and offset, by the two functions of `plan` whose contracts say what these are.
fn print_answer<W: Write>(out: &mut W, answer: Answer) -> io::Result<()> {
    if answer.is_ok() {
        return writeln!(out, "taken");
    }
    let (number, at) = (answer_number(answer), answer_offset(answer));
    writeln!(out, "refused {number} at {at}")
}

// What the last byte completed.
fn print_handed<W: Write>(out: &mut W, r: Reader) -> io::Result<()> {
    match r.handed {
        None => Ok(()),
        Some(Completed::ThePlan) => print_plan(out, r.plan),
        Some(Completed::AnEdit(edit)) => print_edit(out, edit),
    }
}

// A plan file: what is handed out, the answer, the plan left where it is taken; and the answer again, fed in two
// pieces.
fn run_file<W: Write>(out: &mut W, s: &[u8]) -> io::Result<()> {
    let mut r = reader::start();
    for b in s {
        r = reader::step(r, *b);
        print_handed(out, r)?;
    }
    let answer = reader::finish(r);
    print_answer(out, answer)?;
    if answer.is_ok() {
        print_plan(out, r.plan)?;
    }
    let (first, second) = s.split_at(s.len() / 2);
    let whole = reader::feed(reader::feed(reader::start(), first), second);
    print_answer(out, reader::finish(whole))
}

// The ten heads of a call, whose bytes begin after those of n, the edit's head number and the box.
fn heads_at(s: &[u8]) -> [Head; 10] {
    array::from_fn(|i| {
        let at = 18 + 12 * i;
        Head {
            x: int_at(s, at),
            y: int_at(s, at + 4),
            radius: int_at(s, at + 8),
        }
    })
}

// A byte of the list: any but 0 and 1 is the open form.
fn gradients_of(kind: u8) -> Gradients {
    match kind {
        0 => Gradients::None,
        1 => Gradients::Clipped,
        _ => Gradients::Open,
    }
}

// A call in memory: the answers to the plan, to the plan with lent tables and to the edit, and the book after the edit.
fn run_call<W: Write>(out: &mut W, s: &[u8]) -> io::Result<()> {
    let ground = Ground {
        x: int_at(s, 2),
        y: int_at(s, 6),
        width: int_at(s, 10),
        height: int_at(s, 14),
    };
    let plan = Plan {
        ground,
        n: usize::from(byte_at(s, 0)),
        heads: heads_at(s),
    };
    let edit = Edit {
        head: usize::from(byte_at(s, 1)),
        x: int_at(s, 138),
        y: int_at(s, 142),
        radius: int_at(s, 146),
    };
    let gradients = gradients_of(byte_at(s, 150));
    let lent = Lent {
        rows: short_at(s, 151),
        gradients: short_at(s, 153),
    };
    print_answer(out, check::check(plan))?;
    print_answer(out, check::check_call(plan, gradients, lent))?;
    print_answer(out, check::decide(plan, edit, lent))?;
    let booked = book::enter(plan, edit, lent);
    print_answer(out, booked.answer)?;
    print_plan(out, booked.plan)
}

// One trial from the front of s; gives what follows it, which is nothing where the list ends within the trial.
fn trial<'a, W: Write>(out: &mut W, s: &'a [u8]) -> io::Result<&'a [u8]>
    requires { 0 < length s.now }
    ensures { IfOk result (λ rest. length rest.now < length s.now) }
{
    let end = if s[0] == 0 {
        3 + short_at(s, 1)
    } else {
        1 + CALL
    };
    let Some((bytes, rest)) = s.split_at_checked(end) else {
        return Ok(&[]);
    };
    // The kind is asked again: between, it was seen that the list holds all of the trial.
    match bytes[0] {
        0 => run_file(out, &bytes[3..])?,
        _ => run_call(out, &bytes[1..])?,
    }
    Ok(rest)
}

// All trials of a list. Each says how long it is, so that no chunks of one length give them.
fn run<W: Write>(out: &mut W, s: &[u8]) -> io::Result<()> {
    let mut rest = s;
    while !rest.is_empty() {
        rest = trial(out, rest)?;
    }
    Ok(())
}

fn main(rt: HostRuntime) -> io::Result<()> {
    let mut list = Vec::new(rt.alloc());
    rt.stdin().take(65536).read_to_end(&mut list)?;
    let mut out = BufWriter::new(rt.alloc(), rt.stdout())?;
    run(&mut out, &list)?;
    out.flush()
}
