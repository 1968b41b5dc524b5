// The stored cases of the tape's writer.
#![tactic(auto)]

ghost use Rattle.std.specs.Prelude.{◌≡◌};
ghost use Rattle.case_show.specs.Grows.{Grows};

use case_lists::{Tables, Text};
use std::io;
use std::io::Write;

// Room for the longest buffer.
const BUFFER: usize = 21600;

// T: after the tables the buffer's length. It is full of 77 before, so that what is not written shows. Writes, then prints as many bytes of the
// buffer as the text says.
pub fn write_case<W: Write>(writer: &mut W, tables: Tables, text: &mut Text) -> io::Result<()>
    ensures grows { Grows (W.contents writer.old) (W.contents writer.new) }
    ensures same { text.new.bytes ≡ text.old.bytes }
{
    let Tables {
        points,
        corners,
        begins,
    } = tables;
    let n = text.natural(BUFFER);
    let mut room = [77u8; BUFFER];
    let buffer = &mut room[..n];
    let mut out = [0i64; 3];
    let number = exports::solid_write_tape(points, corners, begins, buffer, &mut out);
    case_show::show_answer(writer, number, &out)?;
    let shown = text.natural(buffer.len());
    case_show::show_list(writer, &buffer[..shown])?;
    case_show::show_text(writer, b"\n")
}
