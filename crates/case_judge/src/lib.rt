// The stored cases of the judge and of the outline judge.
#![tactic(auto)]

ghost use Rattle.std.specs.Prelude.{◌≡◌};
ghost use Rattle.case_show.specs.Grows.{Grows};

use case_lists::{Tables, Text};
use std::io;
use std::io::Write;

// Room for the longest outline.
const OUTLINE: usize = 8200;

// J: the tables and no more.
pub fn judge_case<W: Write>(writer: &mut W, tables: Tables) -> io::Result<()>
    ensures { Grows (W.contents writer.old) (W.contents writer.new) }
{
    let mut out = [0i64; 3];
    let number = exports::solid_judge(tables.points, tables.corners, tables.begins, &mut out);
    case_show::show_answer(writer, number, &out)?;
    case_show::show_text(writer, b"\n")
}

// O: the points of an outline.
pub fn outline_case<W: Write>(writer: &mut W, text: &mut Text) -> io::Result<()>
    ensures grows { Grows (W.contents writer.old) (W.contents writer.new) }
    ensures same { text.new.bytes ≡ text.old.bytes }
{
    let mut points = [0i32; OUTLINE];
    let n = case_lists::fill(text, &mut points);
    let mut out = [0i64; 1];
    let number = exports::solid_outline(&points[..n], &mut out);
    case_show::show_answer(writer, number, &out)?;
    case_show::show_text(writer, b"\n")
}
