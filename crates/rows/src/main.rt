// Reads a plan file of any length from standard input and prints the exclusive area of each present row after the last
// edit, or the refusal. All that it works out is `reading`'s; here are the buffer, the tables and the two ends.
#![tactic(auto)]

ghost use Rattle.std.specs.Prelude.{◌≡◌, ◌≢◌, List, ℕ, IfSome, IfOk, OnOk, IfErr};
ghost use Rattle.std.specs.Io.KnownBytes.{Appends, Keeps};
ghost use Rattle.file.specs.File.{read_file};
ghost use Rattle.regions.specs.Slices.{LentTables};
ghost use Rattle.table.specs.Method.{clipped_table};
ghost use Rattle.table.specs.Tables.{tables_in};
ghost use Rattle.reading.specs.Whole.{file_printed};
ghost use Rattle.reading.specs.Reading.{state_in, AfterBytes};
ghost use Rattle.rows.specs.Program.{printed};

use reading::feeding::Reading;
use reading::listing::print_file;
use std::fmt;
use std::io::{Read, Write};
use table::tables::Tables;

// Why nothing, or not all, is printed.
#[derive(Clone, Copy, PartialEq, Eq, Debug)]
enum Trouble {
    Unread,
    Endless,
    Unwritten,
}

impl fmt::Display for Trouble {
    fn fmt<W: fmt::Write>(&self, f: &mut fmt::Formatter<W>) -> fmt::Result {
        match self {
            Trouble::Unread => write!(f, "rows: standard input could not be read"),
            Trouble::Endless => write!(f, "rows: standard input has no end"),
            Trouble::Unwritten => write!(f, "rows: standard output could not be written"),
        }
    }
}

// Reads to the end of the input, which is a read of no byte, and feeds what comes to the tables. A read that fails is
// an error, and no read of no byte. A proved loop has to end: it counts up to a number that no input uses up.
fn read_all<I: Read>(from: &mut I, tables: &mut Tables<'_>) -> Result<Reading, Trouble>
    ensures { IfOk result (λ reading. IfSome (I.remaining from.old)
        (λ xs. AfterBytes clipped_table (tables_in tables.old) xs (state_in reading (tables_in tables.new)))) }
{
    let mut reading = Reading::begin();
    let mut buffer = [0u8; 65536];
    for _ in 0..u64::MAX {
        let n = from.read(&mut buffer).map_err(|_| Trouble::Unread)?;
        if n == 0 {
            return Ok(reading);
        }
        reading.feed(&buffer[..n], tables);
    }
    Err(Trouble::Endless)
}

// What the whole file prints, put together first and then written at once. A slice and a count, as `printing` writes.
fn print<O: Write>(out: &mut O, reading: Reading, tables: &Tables<'_>) -> Result<(), Trouble>
    ensures ok { OnOk result ((t : LentTables) (s : List ℕ)
        → AfterBytes clipped_table t s (state_in reading (tables_in tables.now))
        → Appends (O.contents out.old) (O.contents out.new) (file_printed clipped_table t (read_file s))) }
    ensures err { IfErr result (λ e. e ≡ Trouble.Unwritten) }
{
    let mut text = [0u8; 21504];
    let n = print_file(
        reading,
        tables.presence,
        tables.rows,
        tables.exclusive_presence,
        tables.exclusives,
        &mut text,
    );
    out.write_all(&text[..n]).map_err(|_| Trouble::Unwritten)
}

// The program, over any reader and writer: rows or a refusal where the input has ended, and no row where it could not
// be read.
fn run<I: Read, O: Write>(from: &mut I, out: &mut O) -> Result<(), Trouble>
    ensures ok { OnOk result (IfSome (I.remaining from.old)
        (λ xs. Appends (O.contents out.old) (O.contents out.new) (printed xs))) }
    ensures untouched { IfErr result (λ e. e ≢ Trouble.Unwritten
        → Keeps (O.contents out.old) (O.contents out.new)) }
{
    let mut tables = Tables {
        presence: &mut [0; 1024],
        rows: &mut [0.0; 1024],
        exclusive_presence: &mut [0; 1024],
        exclusives: &mut [0.0; 1024],
    };
    let reading = read_all(from, &mut tables)?;
    print(out, reading, &tables)
}

// No Result: the program ends with 0 whatever happened, and `tools/rows` gives the status (docs/DECISIONS.md).
fn main(rt: HostRuntime) {
    if let Err(trouble) = run(&mut rt.stdin(), &mut rt.stdout()) {
        // If that fails too there is nobody to tell. The exit status is 0 all the same.
        let _ = rt.eprintln(trouble);
    }
}
