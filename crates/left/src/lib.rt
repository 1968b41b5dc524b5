// LEFT: the turn at every point is left.
#![tactic(auto)]

ghost use Rattle.std.specs.Prelude.{◌≡◌, ◌<◌};
ghost use Rattle.whole.specs.First.{found_below};
ghost use Rattle.whole.specs.Bounds.{Exact};
ghost use Rattle.points.specs.Range.{InRange};
ghost use Rattle.space.specs.Rows.{ExactRow, longest};
ghost use Rattle.once_round.specs.Words.{count, Point, point, difference_of, row_of, is_left, left, not_left};

// Coordinate k of the difference b-a.
#[tactic(auto, using(points::specs::Range::difference_is), unfolding(once_round::specs::Words::difference_of))]
fn difference(points: &[i32], a: usize, b: usize, k: usize) -> i64
    requires { InRange points.now × Point points.now a × Point points.now b × (k < 2) }
    ensures { Exact longest (difference_of points.now a b k) result }
{
    pairs::coord(points, b, k) - pairs::coord(points, a, k)
}

// The difference b-a.
fn row(points: &[i32], a: usize, b: usize) -> [i64; 2]
    requires { InRange points.now × Point points.now a × Point points.now b }
    ensures { ExactRow longest (row_of points.now a b) result }
{
    [difference(points, a, b, 0), difference(points, a, b, 1)]
}

// Whether the turn at point b, from a to c, is left.
fn is_left(points: &[i32], a: usize, b: usize, c: usize) -> bool
    requires { InRange points.now × Point points.now a × Point points.now b × Point points.now c }
    ensures { result ≡ is_left (point points.now a) (point points.now b) (point points.now c) }
{
    0 < space::minor(row(points, a, b), row(points, b, c))
}

// Whether the turn at point i, from the point before to the point after, is left.
fn is_left_at(points: &[i32], i: usize) -> bool
    requires { InRange points.now × Point points.now i }
    ensures { result ≡ left points.now i }
{
    let n = points.len() / 2;
    is_left(
        points,
        pairs::point_before(n, i),
        i,
        pairs::point_after(n, i),
    )
}

// The first point whose turn isn't left.
pub fn first_not_left(points: &[i32]) -> Option<usize>
    requires { InRange points.now }
    ensures { result ≡ found_below (not_left points.now) (count points.now) }
{
    (0..points.len() / 2).find(|&i| !is_left_at(points, i))
}
