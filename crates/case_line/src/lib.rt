// The stored cases of the lines that the two programs print.
#![tactic(auto)]

ghost use Rattle.std.specs.Prelude.{◌≡◌};
ghost use Rattle.case_show.specs.Grows.{Grows};

use case_lists::Text;
use std::io;
use std::io::Write;

// Room for the walk program's longest input.
const INPUT: usize = 400;

// L: the tape and no more.
pub fn judging_case<W: Write>(writer: &mut W, tape: &[u8]) -> io::Result<()>
    ensures { Grows (W.contents writer.old) (W.contents writer.new) }
{
    run::print(writer, programs::judge_line(tape))
}

// M: after the tape the walk program's input.
pub fn walking_case<W: Write>(writer: &mut W, tape: &[u8], text: &mut Text) -> io::Result<()>
    ensures grows { Grows (W.contents writer.old) (W.contents writer.new) }
    ensures same { text.new.bytes ≡ text.old.bytes }
{
    let mut input = [0u8; INPUT];
    let n = case_lists::fill(text, &mut input);
    run::print(writer, programs::walk_line(tape, &input[..n]))
}
