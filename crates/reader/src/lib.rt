// The tape's reader: one pass decides, and one fills the lent tables.
#![tactic(auto)]

ghost use Rattle.std.specs.Prelude.{◌≡◌};
ghost use Rattle.tape.specs.Reading.{read_tape};
ghost use Rattle.reader.specs.Answer.{reading, points_after, corners_after, begins_after};

use reading::{Counts, Refused};
use refusals::Refusal;
use tape::Record;

// The deciding pass: what the records add up to, or the first bad one.
fn decide(tape: &[u8]) -> Result<Counts, Refused>
    ensures { result ≡ read_tape tape.now }
{
    let mut at = 0;
    let mut read = Counts {
        vertices: 0,
        facets: 0,
        corners: 0,
    };
    loop {
        match look::look(tape, at, read)? {
            Record::Point => {
                at += 7;
                read.vertices += 1;
            }
            Record::Facet(n) => {
                at += 1 + 2 * n;
                read.facets += 1;
                read.corners += n;
            }
            Record::End => return Ok(read),
        }
    }
}

// Reads a tape into the lent tables.
pub fn read_tape(
    tape: &[u8],
    points: &mut [i32],
    corners: &mut [u16],
    begins: &mut [u16],
) -> Result<Counts, Refused>
    ensures answer { result ≡ reading tape.now points.old corners.old begins.old }
    ensures points { points.new ≡ points_after tape.now points.old corners.old begins.old }
    ensures corners { corners.new ≡ corners_after tape.now points.old corners.old begins.old }
    ensures begins { begins.new ≡ begins_after tape.now points.old corners.old begins.old }
{
    if reading::no_room(points.len(), corners.len(), begins.len()) {
        return Err(Refused::at(Refusal::Room, 0));
    }
    let read = decide(tape)?;
    points_in::fill_points(tape, 0, points, read.vertices);
    facets_in::fill_facets(tape, 7 * read.vertices, corners, begins, read.facets);
    Ok(read)
}
