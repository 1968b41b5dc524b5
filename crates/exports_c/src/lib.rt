// The functions of `exports` for C, under the names that include/solid.h declares.
#![tactic(auto)]

ghost use Rattle.std.specs.Prelude.{◌≡◌, length};
ghost use Rattle.tables.specs.LookUp.{look_up, look_up_at};
ghost use Rattle.judge.specs.Judge.{judged};
ghost use Rattle.outline.specs.Outline.{judged_outline};
ghost use Rattle.reading.specs.Answer.{answer_number};
ghost use Rattle.reader.specs.Answer.{reading, points_after, corners_after, begins_after};
ghost use Rattle.writer.specs.Answer.{written, buffer_after};
ghost use Rattle.direction.specs.Direction.{direction};
ghost use Rattle.walk.specs.Walk.{walked, trail_after};
ghost use Rattle.out.specs.Noted.{noted};
ghost use Rattle.notes.specs.Out.{places, course, counts, place, extent};

// The judge of a solid. `out` gets the three places, and the number is returned.
#[unsafe(no_mangle)]
pub extern "C" fn solid_judge(
    points: &[i32],
    corners: &[u16],
    begins: &[u16],
    out: &mut [i64],
) -> u16
    ensures number { result ≡ (judged points.now corners.now begins.now).number }
    ensures out { out.new ≡ noted (places (judged points.now corners.now begins.now)) out.old }
{
    exports::solid_judge(points, corners, begins, out)
}

// The walk. `out` gets the judge's three places, then vertex, height and moves, and the number is returned.
#[unsafe(no_mangle)]
pub extern "C" fn solid_walk(
    points: &[i32],
    corners: &[u16],
    begins: &[u16],
    start: u32,
    dx: i32,
    dy: i32,
    dz: i32,
    trail: &mut [u16],
    out: &mut [i64],
) -> u16
    ensures number { result ≡
        (walked points.now corners.now begins.now (direction dx dy dz) start trail.old).answer.number }
    ensures trail { trail.new ≡
        trail_after points.now corners.now begins.now (direction dx dy dz) start trail.old }
    ensures out { out.new ≡
        noted (course (walked points.now corners.now begins.now (direction dx dy dz) start trail.old))
        out.old }
{
    exports::solid_walk(points, corners, begins, start, dx, dy, dz, trail, out)
}

// The facet look-up. `out` gets where its part begins in the run and how many corners it has, both 0 where it refuses, and 0 is returned.
#[unsafe(no_mangle)]
pub extern "C" fn solid_facet(
    points: &[i32],
    corners: &[u16],
    begins: &[u16],
    facet: u32,
    out: &mut [i64],
) -> u16
    ensures number { result ≡ 0 }
    ensures out { out.new ≡
        noted (extent (look_up_at points.now corners.now begins.now facet)
        (length (look_up points.now corners.now begins.now facet)))
        out.old }
{
    exports::solid_facet(points, corners, begins, facet, out)
}

// The judge of an outline. `out` gets the place or the count, and the number is returned.
#[unsafe(no_mangle)]
pub extern "C" fn solid_outline(points: &[i32], out: &mut [i64]) -> u16
    ensures number { result ≡ (judged_outline points.now).number }
    ensures out { out.new ≡ noted (place (judged_outline points.now)) out.old }
{
    exports::solid_outline(points, out)
}

// The tape's reader. `out` gets V, F and corners, or the offset and zeros, and the number is returned.
#[unsafe(no_mangle)]
pub extern "C" fn solid_read_tape(
    tape: &[u8],
    points: &mut [i32],
    corners: &mut [u16],
    begins: &mut [u16],
    out: &mut [i64],
) -> u16
    ensures number { result ≡ answer_number (reading tape.now points.old corners.old begins.old) }
    ensures points { points.new ≡ points_after tape.now points.old corners.old begins.old }
    ensures corners { corners.new ≡ corners_after tape.now points.old corners.old begins.old }
    ensures begins { begins.new ≡ begins_after tape.now points.old corners.old begins.old }
    ensures out { out.new ≡
        noted (counts (reading tape.now points.old corners.old begins.old)) out.old }
{
    exports::solid_read_tape(tape, points, corners, begins, out)
}

// The tape's writer. `out` gets the length and zeros, or the places, and the number is returned.
#[unsafe(no_mangle)]
pub extern "C" fn solid_write_tape(
    points: &[i32],
    corners: &[u16],
    begins: &[u16],
    buffer: &mut [u8],
    out: &mut [i64],
) -> u16
    ensures number { result ≡ (written points.now corners.now begins.now buffer.old).number }
    ensures buffer { buffer.new ≡ buffer_after points.now corners.now begins.now buffer.old }
    ensures out { out.new ≡
        noted (places (written points.now corners.now begins.now buffer.old)) out.old }
{
    exports::solid_write_tape(points, corners, begins, buffer, out)
}
