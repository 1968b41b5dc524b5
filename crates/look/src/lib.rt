// What stands at an offset of a tape: a sound record, or the first rule that it breaks.
#![tactic(auto)]

ghost use Rattle.std.specs.Prelude.{◌≡◌, ◌+◌, ◌*◌, ◌≤◌, ◌<◌, length};
ghost use Rattle.tables.specs.Tables.{most_corners, most_sides};
ghost use Rattle.tape.specs.Reading.{point_at, facet_at, end_at, look_at};

use reading::{Counts, Refused};
use refusals::Refusal;
use tape::Record;

// ORDER, LIMIT and CUT at a point's record.
fn look_point(tape: &[u8], at: usize, read: Counts) -> Result<Record, Refused>
    requires { at < length tape.now }
    ensures { result ≡ point_at tape.now at read.vertices read.facets }
{
    if 0 < read.facets {
        return Err(Refused::at(Refusal::Order, at));
    }
    if tables::MOST_VERTICES <= read.vertices {
        return Err(Refused::at(Refusal::Limit, at));
    }
    if tape.len() - at < 7 {
        return Err(Refused::at(Refusal::Cut, at));
    }
    Ok(Record::Point)
}

// LIMIT and CUT at the record of a facet with n corners.
fn look_facet(tape: &[u8], at: usize, read: Counts, n: usize) -> Result<Record, Refused>
    requires { (at < length tape.now) × (read.corners ≤ most_corners) × (n ≤ most_sides) }
    ensures { result ≡ facet_at tape.now at read.facets read.corners n }
{
    if tables::MOST_FACETS <= read.facets || tables::MOST_CORNERS < read.corners + n {
        return Err(Refused::at(Refusal::Limit, at));
    }
    if tape.len() - at < 1 + 2 * n {
        return Err(Refused::at(Refusal::Cut, at));
    }
    Ok(Record::Facet(n))
}

// CUT, COUNT and TAIL at the end record.
fn look_end(tape: &[u8], at: usize, read: Counts) -> Result<Record, Refused>
    requires { at < length tape.now }
    ensures { result ≡ end_at tape.now at read.vertices read.facets }
{
    let left = tape.len() - at;
    if left < 5 {
        return Err(Refused::at(Refusal::Cut, at));
    }
    if usize::from(tape::unsigned_at(tape, at + 1)) != read.vertices
        || usize::from(tape::unsigned_at(tape, at + 3)) != read.facets
    {
        return Err(Refused::at(Refusal::Count, at));
    }
    if 5 < left {
        return Err(Refused::at(Refusal::Tail, at + 5));
    }
    Ok(Record::End)
}

// What stands at an offset, after records that add up to what was read.
#[tactic(auto, unfolding(tape::specs::Reading::look_at))]
pub fn look(tape: &[u8], at: usize, read: Counts) -> Result<Record, Refused>
    requires { read.corners ≤ most_corners }
    ensures { result ≡ look_at tape.now at read.vertices read.facets read.corners }
{
    let Some(&kind) = tape.get(at) else {
        return Err(Refused::at(Refusal::Cut, at));
    };
    match kind {
        0 => look_end(tape, at, read),
        1 => look_point(tape, at, read),
        3..=12 => look_facet(tape, at, read, usize::from(kind)),
        _ => Err(Refused::at(Refusal::Kind, at)),
    }
}
