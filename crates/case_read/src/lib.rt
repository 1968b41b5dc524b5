// The stored cases of the tape's reader.
#![tactic(auto)]

ghost use Rattle.std.specs.Prelude.{◌≡◌};
ghost use Rattle.case_show.specs.Grows.{Grows};

use case_lists::{Tables, Text};
use std::io;
use std::io::Write;

// Room for the longest table.
const TABLE: usize = 65600;

// Prints as many entries of a table as the text says.
fn show_table<T: Into<i64> + Copy, W: Write>(
    writer: &mut W,
    table: &[T],
    text: &mut Text,
) -> io::Result<()>
    ensures grows { Grows (W.contents writer.old) (W.contents writer.new) }
    ensures same { text.new.bytes ≡ text.old.bytes }
{
    let n = text.natural(table.len());
    case_show::show_list(writer, &table[..n])
}

fn show_tables<W: Write>(writer: &mut W, tables: Tables, text: &mut Text) -> io::Result<()>
    ensures grows { Grows (W.contents writer.old) (W.contents writer.new) }
    ensures same { text.new.bytes ≡ text.old.bytes }
{
    show_table(writer, tables.points, text)?;
    show_table(writer, tables.corners, text)?;
    show_table(writer, tables.begins, text)?;
    case_show::show_text(writer, b"\n")
}

// R: after the tape the tables' lengths. They are full of 77 before, so that what is not written shows. Reads, then prints the answer and the
// tables.
pub fn read_case<W: Write>(writer: &mut W, tape: &[u8], text: &mut Text) -> io::Result<()>
    ensures grows { Grows (W.contents writer.old) (W.contents writer.new) }
    ensures same { text.new.bytes ≡ text.old.bytes }
{
    let p = text.natural(TABLE);
    let c = text.natural(TABLE);
    let b = text.natural(TABLE);
    let mut point_room = [77i32; TABLE];
    let points = &mut point_room[..p];
    let mut corner_room = [77u16; TABLE];
    let corners = &mut corner_room[..c];
    let mut begin_room = [77u16; TABLE];
    let begins = &mut begin_room[..b];
    let mut out = [0i64; 3];
    let number = exports::solid_read_tape(tape, points, corners, begins, &mut out);
    case_show::show_answer(writer, number, &out)?;
    show_tables(
        writer,
        Tables {
            points,
            corners,
            begins,
        },
        text,
    )
}
