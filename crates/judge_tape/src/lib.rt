// The judging program's work: a tape read, then judged.
#![tactic(auto)]

ghost use Rattle.std.specs.Prelude.{◌≡◌};
ghost use Rattle.judge_tape.specs.Tape.{judged_tape};

// Reads a tape, then judges.
pub fn judge_tape(tape: &[u8]) -> answers::Answer
    ensures { result ≡ judged_tape tape.now }
{
    let mut points = [0i32; reading::POINT_ROOM];
    let mut corners = [0u16; reading::CORNER_ROOM];
    let mut begins = [0u16; reading::BEGIN_ROOM];
    match load::load(tape, &mut points, &mut corners, &mut begins) {
        Ok(loaded) => judge::judge(
            &points[..loaded.points],
            &corners[..loaded.corners],
            &begins[..loaded.begins],
        ),
        Err(refused) => answers::Answer::at_offset(refused.number, refused.offset),
    }
}
