// The stored cases of the facet look-up.
#![tactic(auto)]

ghost use Rattle.std.specs.Prelude.{◌≡◌};
ghost use Rattle.case_show.specs.Grows.{Grows};

use case_lists::{Tables, Text};
use std::io;
use std::io::Write;

// F: after the tables the facet. Prints where its part lies, then the part that the look-up hands back.
pub fn facet_case<W: Write>(writer: &mut W, tables: Tables, text: &mut Text) -> io::Result<()>
    ensures grows { Grows (W.contents writer.old) (W.contents writer.new) }
    ensures same { text.new.bytes ≡ text.old.bytes }
{
    let Tables {
        points,
        corners,
        begins,
    } = tables;
    let facet: u32 = text.number();
    let mut out = [0i64; 2];
    let number = exports::solid_facet(points, corners, begins, facet, &mut out);
    case_show::show_answer(writer, number, &out)?;
    case_show::show_list(
        writer,
        tables::facet(points, corners, begins, facet as usize),
    )?;
    case_show::show_text(writer, b"\n")
}
