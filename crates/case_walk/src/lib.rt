// The stored cases of the walk.
#![tactic(auto)]

ghost use Rattle.std.specs.Prelude.{◌≡◌};
ghost use Rattle.case_show.specs.Grows.{Grows};

use case_lists::{Tables, Text};
use std::io;
use std::io::Write;

// Room for the longest trail.
const TRAIL: usize = 400;

// W: after the tables start, direction, and the trail as it is before the walk. Walks, then prints the whole trail.
pub fn walk_case<W: Write>(writer: &mut W, tables: Tables, text: &mut Text) -> io::Result<()>
    ensures grows { Grows (W.contents writer.old) (W.contents writer.new) }
    ensures same { text.new.bytes ≡ text.old.bytes }
{
    let Tables {
        points,
        corners,
        begins,
    } = tables;
    let start = text.number();
    let dx = text.number();
    let dy = text.number();
    let dz = text.number();
    let mut room = [0u16; TRAIL];
    let n = case_lists::fill(text, &mut room);
    let trail = &mut room[..n];
    let mut out = [0i64; 6];
    let number = exports::solid_walk(points, corners, begins, start, dx, dy, dz, trail, &mut out);
    case_show::show_answer(writer, number, &out)?;
    case_show::show_list(writer, trail)?;
    case_show::show_text(writer, b"\n")
}
