// The walk program's work: a tape read, then walked.
#![tactic(auto)]

ghost use Rattle.std.specs.Prelude.{◌≡◌};
ghost use Rattle.walk_tape.specs.Tape.{walked_tape};

// Reads a tape, then walks.
pub fn walk_tape(tape: &[u8], direction: direction::Direction, start: usize) -> walk::Walked
    ensures { result ≡ walked_tape tape.now direction start }
{
    let mut points = [0i32; reading::POINT_ROOM];
    let mut corners = [0u16; reading::CORNER_ROOM];
    let mut begins = [0u16; reading::BEGIN_ROOM];
    let mut trail = [0u16; tables::MOST_VERTICES];
    match load::load(tape, &mut points, &mut corners, &mut begins) {
        Ok(loaded) => walk::walk(
            &points[..loaded.points],
            &corners[..loaded.corners],
            &begins[..loaded.begins],
            direction,
            start,
            &mut trail,
        ),
        Err(refused) => walk::Walked::refused(refused.number),
    }
}
