// The tape's writer.
#![tactic(auto)]

ghost use Rattle.std.specs.Prelude.{◌≡◌, ◌≤◌, length};
ghost use Rattle.limits.specs.InOrder.{InOrder};
ghost use Rattle.whole.specs.Over.{over};
ghost use Rattle.tape.specs.Tape.{tape};
ghost use Rattle.writer.specs.Answer.{written, buffer_after};

use answers::Answer;
use refusals::Refusal;

// The tape of tables in order, written over the beginning of a buffer that has room.
#[tactic(auto, using(crate::specs::Owed::long))]
fn put_tape(points: &[i32], corners: &[u16], begins: &[u16], buffer: &mut [u8])
    requires in_order { InOrder points.now corners.now begins.now }
    requires room { length (tape points.now corners.now begins.now) ≤ length buffer.old }
    ensures { buffer.new ≡ over (tape points.now corners.now begins.now) buffer.old }
{
    let v = points.len() / 3;
    let f = begins.len() - 1;
    let facets = 7 * v;
    let end = facets + f + 2 * corners.len();
    tables_out::put_points(buffer, points);
    tables_out::put_facets(&mut buffer[facets..], corners, begins);
    records::put_counts(&mut buffer[end..], 0, v as u16, f as u16);
}

// Writes the tape of tables over the beginning of a buffer.
pub fn write_tape(points: &[i32], corners: &[u16], begins: &[u16], buffer: &mut [u8]) -> Answer
    ensures answer { result ≡ written points.now corners.now begins.now buffer.old }
    ensures buffer { buffer.new ≡ buffer_after points.now corners.now begins.now buffer.old }
{
    if let Err(fault) = limits::check(points, corners, begins) {
        return Answer::of(points, corners, begins, Err(fault));
    }
    let long = 7 * (points.len() / 3) + (begins.len() - 1) + 2 * corners.len() + 5;
    if buffer.len() < long {
        return Answer::refused(Refusal::Buffer.number());
    }
    put_tape(points, corners, begins, buffer);
    Answer::of_length(long)
}
