// Reading and writing that go on where a signal interrupts them, and tell where they fail.
#![tactic(auto)]

ghost use Rattle.std.specs.Prelude.{◌≡◌, ◌<◌, ◌≤◌, ℕ, length, take, IfOk, OnOk, OnErr, MatchResult};
ghost use Rattle.std.specs.Io.{ReadsAtMost, WritesAtMost};
ghost use Rattle.std.specs.Io.KnownBytes.{Appends, Consumes, IsAtEnd, ReadConsumes, WriteAppends};
ghost use Rattle.whole.specs.Begin.{Begin};

use std::io;
use std::io::{ErrorKind, Read, Write};

// A read that failed, and how many bytes were read before it.
#[derive(Drop)]
pub struct Cut {
    pub len: usize,
    pub error: io::Error,
}

impl From<Cut> for io::Error {
    ghost from_gives = { λ cut e. e ≡ cut.error };

    fn from(cut: Cut) -> io::Error {
        cut.error
    }
}

// One read, made again where a signal interrupts it.
fn read_on<R: Read>(reader: &mut R, buf: &mut [u8]) -> io::Result<usize>
    ensures bound { ReadsAtMost result buf.new }
    ensures bytes { ReadConsumes (R.remaining reader.old) (R.remaining reader.new) result buf.new }
{
    for _ in 0..u64::MAX {
        match reader.read(buf) {
            Ok(n) => return Ok(n),
            Err(e) if e.kind() == ErrorKind::Interrupted => {}
            Err(e) => return Err(e),
        }
    }
    reader.read(buf)
}

// One write, made again where a signal interrupts it.
fn write_on<W: Write>(writer: &mut W, buf: &[u8]) -> io::Result<usize>
    ensures bound { WritesAtMost result buf.now }
    ensures bytes { WriteAppends (W.contents writer.old) (W.contents writer.new) result buf.now }
{
    for _ in 0..u64::MAX {
        match writer.write(buf) {
            Ok(n) => return Ok(n),
            Err(e) if e.kind() == ErrorKind::Interrupted => {}
            Err(e) => return Err(e),
        }
    }
    writer.write(buf)
}

// Reads until buf is full or the input ends; how many bytes were read.
pub fn read_all<R: Read>(reader: &mut R, buf: &mut [u8]) -> Result<usize, Cut>
    ensures begin { MatchResult result (λ n. Begin n buf.new) (λ cut. Begin cut.len buf.new) }
    ensures bytes { MatchResult result
        (λ n. Consumes (R.remaining reader.old) (R.remaining reader.new) (take n buf.new))
        (λ cut. Consumes (R.remaining reader.old) (R.remaining reader.new) (take cut.len buf.new)) }
    ensures end { IfOk result (λ n. n < length buf.new → IsAtEnd (R.remaining reader.new)) }
{
    let mut len = 0;
    while len < buf.len() {
        match read_on(reader, &mut buf[len..]) {
            Ok(0) => return Ok(len),
            Ok(more) => len += more,
            Err(error) => return Err(Cut { len, error }),
        }
    }
    Ok(len)
}

// Writes all of buf, or its beginning where a write fails or takes nothing.
pub fn write_all<W: Write>(writer: &mut W, buf: &[u8]) -> io::Result<()>
    ensures ok { OnOk result (Appends (W.contents writer.old) (W.contents writer.new) buf.now) }
    ensures err { OnErr result ((n : ℕ) × (n ≤ length buf.now)
        × Appends (W.contents writer.old) (W.contents writer.new) (take n buf.now)) }
{
    let mut done = 0;
    while done < buf.len() {
        match write_on(writer, &buf[done..])? {
            0 => return Err(io::Error::from(ErrorKind::WriteZero)),
            more => done += more,
        }
    }
    Ok(())
}
