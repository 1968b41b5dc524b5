// The points of a tape's records, stored into the lent table.
#![tactic(auto)]

ghost use Rattle.std.specs.Prelude.{◌≡◌, ◌+◌, ◌*◌, ◌≤◌, length};
ghost use Rattle.std.proofs.lemmas.List.Edits.{sets};
ghost use Rattle.whole.specs.Over.{over};
ghost use Rattle.tape.specs.Reading.{coords_at, points_at};

// The numbers of a point's body, which starts at i, stored from p on.
fn keep_point(points: &mut [i32], p: usize, tape: &[u8], i: usize)
    requires { (p + 3 ≤ length points.old) × (i + 6 ≤ length tape.now) }
    ensures { points.new ≡ sets points.old p (coords_at tape.now i) }
{
    points[p] = tape::signed_at(tape, i);
    points[p + 1] = tape::signed_at(tape, i + 2);
    points[p + 2] = tape::signed_at(tape, i + 4);
}

// The points of n records from `at` on.
pub fn fill_points(tape: &[u8], at: usize, points: &mut [i32], n: usize)
    requires { (at + 7 * n ≤ length tape.now) × (n * 3 ≤ length points.old) }
    ensures { points.new ≡ over (points_at tape.now at n) points.old }
{
    for v in 0..n {
        keep_point(points, v * 3, tape, at + 7 * v + 1);
    }
}
