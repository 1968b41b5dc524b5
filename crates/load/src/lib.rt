// What every program on a tape begins with: the tape read into tables that are lent, and how much of each is the tape's.
#![tactic(auto)]

ghost use Rattle.std.specs.Prelude.{◌≡◌, IfOk};
ghost use Rattle.tape.specs.Reading.{read_tape};
ghost use Rattle.reader.specs.Answer.{points_of, corners_of, begins_of};
ghost use Rattle.load.specs.Loaded.{loaded_of, HasEntries};

// How many entries of each table are the tape's.
#[derive(Clone, Copy)]
pub struct Loaded {
    pub points: usize,
    pub corners: usize,
    pub begins: usize,
}

// Reads a tape into tables that have room.
pub fn load(
    tape: &[u8],
    points: &mut [i32; reading::POINT_ROOM],
    corners: &mut [u16; reading::CORNER_ROOM],
    begins: &mut [u16; reading::BEGIN_ROOM],
) -> Result<Loaded, reading::Refused>
    ensures answer { result ≡ loaded_of (read_tape tape.now) }
    ensures points { points.new ≡ points_of tape.now points.old (read_tape tape.now) }
    ensures corners { corners.new ≡ corners_of tape.now corners.old (read_tape tape.now) }
    ensures begins { begins.new ≡ begins_of tape.now begins.old (read_tape tape.now) }
    ensures entries { IfOk result (λ loaded. HasEntries loaded points.new corners.new begins.new) }
{
    let read = reader::read_tape(tape, points, corners, begins)?;
    Ok(Loaded {
        points: read.vertices * 3,
        corners: read.corners,
        begins: read.facets + 1,
    })
}
