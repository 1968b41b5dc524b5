// The stored cases, one by one. Each is a letter and what is lent, where a list is how many numbers, then each.
// The answer is printed on one line, and after it what stands in the lent tables.
#![tactic(auto)]

ghost use Rattle.std.specs.Prelude.{◌≡◌};
ghost use Rattle.case_show.specs.Grows.{Grows};

use case_lists::{Tables, Text};
use std::io;
use std::io::Write;

// Room for the longest list of a solid's tables, and for the longest tape.
const LIST: usize = 400;

const TAPE: usize = 13000;

// Room for what a case begins with. It serves case after case: each reads no more of it than it has filled.
#[derive(Drop)]
struct Room {
    points: [i32; LIST],
    corners: [u16; LIST],
    begins: [u16; LIST],
    tape: [u8; TAPE],
}

impl Room {
    fn tables(&mut self, text: &mut Text) -> Tables<'_>
        ensures { text.new.bytes ≡ text.old.bytes }
    {
        let p = case_lists::fill(text, &mut self.points);
        let c = case_lists::fill(text, &mut self.corners);
        let b = case_lists::fill(text, &mut self.begins);
        Tables {
            points: &self.points[..p],
            corners: &self.corners[..c],
            begins: &self.begins[..b],
        }
    }

    fn tape(&mut self, text: &mut Text) -> &[u8]
        ensures { text.new.bytes ≡ text.old.bytes }
    {
        let n = case_lists::fill(text, &mut self.tape);
        &self.tape[..n]
    }
}

// Runs the case of a letter.
fn case<W: Write>(writer: &mut W, letter: u8, room: &mut Room, text: &mut Text) -> io::Result<()>
    ensures grows { Grows (W.contents writer.old) (W.contents writer.new) }
    ensures same { text.new.bytes ≡ text.old.bytes }
{
    match letter {
        b'O' => case_judge::outline_case(writer, text),
        b'L' => case_line::judging_case(writer, room.tape(text)),
        b'M' => case_line::walking_case(writer, room.tape(text), text),
        b'R' => case_read::read_case(writer, room.tape(text), text),
        b'W' => case_walk::walk_case(writer, room.tables(text), text),
        b'F' => case_facet::facet_case(writer, room.tables(text), text),
        b'T' => case_write::write_case(writer, room.tables(text), text),
        _ => case_judge::judge_case(writer, room.tables(text)),
    }
}

// Runs all cases of the text; it has no more of them than bytes.
pub fn run<W: Write>(writer: &mut W, text: &[u8]) -> io::Result<()>
    ensures { Grows (W.contents writer.old) (W.contents writer.new) }
{
    let mut rest = Text { bytes: text, at: 0 };
    let mut room = Room {
        points: [0; LIST],
        corners: [0; LIST],
        begins: [0; LIST],
        tape: [0; TAPE],
    };
    for _ in text {
        let Some(letter) = rest.letter() else {
            break;
        };
        case(writer, letter, &mut room, &mut rest)?;
    }
    Ok(())
}
