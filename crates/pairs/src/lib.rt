// The points of an outline, x and y in turn: a coordinate, the neighbours in the ring, and RANGE.
#![tactic(auto)]

ghost use Rattle.std.specs.Prelude.{◌≡◌, ◌<◌};
ghost use Rattle.whole.specs.First.{found_below};
ghost use Rattle.whole.specs.Bounds.{Exact};
ghost use Rattle.points.specs.Range.{limit, InRange};
ghost use Rattle.once_round.specs.Words.{count, Point, coord_of, before, after, out_of_range};
ghost use Rattle.pairs.specs.Neighbour.{Beside};

// Coordinate k of point i.
#[tactic(auto, unfolding(once_round::specs::Words::coord_of))]
pub fn coord(points: &[i32], i: usize, k: usize) -> i64
    requires { InRange points.now × Point points.now i × (k < 2) }
    ensures { Exact limit (coord_of points.now i k) result }
{
    points::entry(points, i * 2 + k)
}

// The number of the point before point i of n.
#[tactic(auto, unfolding(once_round::specs::Words::before))]
pub fn point_before(n: usize, i: usize) -> usize
    requires { i < n }
    ensures { Beside n (before n i) result }
{
    if i == 0 { n - 1 } else { i - 1 }
}

// The number of the point after point i of n.
#[tactic(auto, unfolding(once_round::specs::Words::after))]
pub fn point_after(n: usize, i: usize) -> usize
    requires { i < n }
    ensures { Beside n (after n i) result }
{
    if i + 1 < n { i + 1 } else { 0 }
}

// Whether a coordinate of point i is outside its limits.
#[tactic(auto, unfolding(once_round::specs::Words::coord_of))]
fn is_out_at(points: &[i32], i: usize) -> bool
    requires { Point points.now i }
    ensures { result ≡ out_of_range points.now i }
{
    points::is_out(points[i * 2]) || points::is_out(points[i * 2 + 1])
}

// The first point with a coordinate outside its limits.
pub fn first_out(points: &[i32]) -> Option<usize>
    ensures { result ≡ found_below (out_of_range points.now) (count points.now) }
{
    (0..points.len() / 2).find(|&i| is_out_at(points, i))
}
