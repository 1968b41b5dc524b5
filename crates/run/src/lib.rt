// The two programs: each reads a tape and what else it needs, and prints one line. Where the world fails them (a file that can't be opened,
// a read or a write that fails) they print no line and return what failed, which `main` says on standard error.
#![tactic(auto)]

ghost use Rattle.std.specs.Prelude.{◌≤◌, ℕ, length, take, IfOk, OnOk, OnErr};
ghost use Rattle.std.specs.Io.KnownBytes.{Appends};
ghost use Rattle.whole.specs.Begin.{Begin};

use std::error::Error;
use std::io::{ErrorKind, Write};
use std::rt::Files;
use std::{fmt, fs, io};

// One byte more than the longest tape has: "the answer is already sure" (`judge_cut`, `walk-cut`, crate printed).
const TAPE: usize = 7 * tables::MOST_VERTICES + tables::MOST_FACETS + 2 * tables::MOST_CORNERS + 6;

// One byte more than the input that is split into words, which settles the line (`input_cut`, crate printed).
const INPUT: usize = input::LONGEST + 1;

// What failed in the world, and how.
#[derive(Drop)]
pub struct Fault<'a> {
    what: &'a str,
    error: io::Error,
}

impl<'a> Fault<'a> {
    fn new<E: Into<io::Error>>(what: &'a str, error: E) -> Fault<'a> {
        Fault {
            what,
            error: error.into(),
        }
    }
}

impl fmt::Display for Fault<'_> {
    fn fmt<W: fmt::Write>(&self, f: &mut fmt::Formatter<W>) -> fmt::Result {
        write!(f, "{}: {}", self.what, self.error)
    }
}

// As `main` says it.
impl fmt::Debug for Fault<'_> {
    fn fmt<W: fmt::Write>(&self, f: &mut fmt::Formatter<W>) -> fmt::Result {
        write!(f, "{self}")
    }
}

impl Error for Fault<'_> {}

// Prints the bytes of a line.
pub fn print<W: Write>(writer: &mut W, line: lines::Line) -> io::Result<()>
    requires { Begin line.len line.bytes }
    ensures ok { OnOk result (Appends (W.contents writer.old) (W.contents writer.new) (take line.len line.bytes)) }
    ensures err { OnErr result ((n : ℕ) × (n ≤ line.len)
        × Appends (W.contents writer.old) (W.contents writer.new) (take n line.bytes)) }
{
    streams::write_all(writer, &line.bytes[..line.len])
}

// Prints a line on standard output.
fn put<R: Print>(rt: &R, line: lines::Line) -> Result<(), Fault<'static>>
    requires { Begin line.len line.bytes }
{
    print(&mut io::writer(rt), line).map_err(|error| Fault::new("standard output", error))
}

// Reads standard input, as much as there is room for.
fn read_input<R: Input>(rt: &R, buf: &mut [u8]) -> Result<usize, Fault<'static>>
    ensures { IfOk result (λ n. Begin n buf.new) }
{
    streams::read_all(&mut rt.reader(), buf).map_err(|cut| Fault::new("standard input", cut))
}

// A file's name as text, which the library asks for.
fn text_of(name: &[u8]) -> Result<&str, Fault<'static>> {
    std::str::from_utf8(name).map_err(|_| {
        let error = io::Error::new(ErrorKind::InvalidInput, "not UTF-8");
        Fault::new("the file's name", error)
    })
}

// Reads a file, as much as there is room for; one that isn't there counts as empty.
fn read_file<'a, R: Files>(rt: &R, name: &'a [u8], buf: &mut [u8]) -> Result<usize, Fault<'a>>
    ensures { IfOk result (λ n. Begin n buf.new) }
{
    let what = text_of(name)?;
    match fs::open(rt, what) {
        Ok(mut file) => streams::read_all(&mut file, buf).map_err(|cut| Fault::new(what, cut)),
        Err(error) if error.kind() == ErrorKind::NotFound => Ok(0),
        Err(error) => Err(Fault::new(what, error)),
    }
}

// Judges the solid of the tape on standard input, and prints number and three places.
pub fn judge_input<R: Input + Print>(rt: &R) -> Result<(), Fault<'static>> {
    let mut tape = [0u8; TAPE];
    let n = read_input(rt, &mut tape)?;
    put(rt, programs::judge_line(&tape[..n]))
}

// Walks on the solid of the tape in a file, from the start and in the direction on standard input, and prints number, vertex,
// height, moves.
pub fn walk_input<'a, R: Files + Input + Print>(rt: &R, name: &'a [u8]) -> Result<(), Fault<'a>> {
    let mut tape = [0u8; TAPE];
    let n = read_file(rt, name, &mut tape)?;
    let mut input = [0u8; INPUT];
    let m = read_input(rt, &mut input)?;
    put(rt, programs::walk_line(&tape[..n], &input[..m]))
}
