// The lent points: every coordinate is read here, with its limits, and the row from one point to another.
#![tactic(auto)]

ghost use Rattle.std.specs.Prelude.{◌≡◌, ◌||◌, ◌<◌, pos, length, get_or};
ghost use Rattle.std.specs.Int.Signed.{lt_z};
ghost use Rattle.whole.specs.Bounds.{Exact};
ghost use Rattle.space.specs.Rows.{ExactRow, longest};
ghost use Rattle.points.specs.Range.{limit, is_out, InRange};
ghost use Rattle.points.specs.Points.{Vertex, Ranged, coord_of, difference_of, row_of};

// Whether a number is outside least to most.
pub fn exceeds(x: i32, least: i32, most: i32) -> bool
    ensures { result ≡ (lt_z x least || lt_z most x) }
{
    x < least || most < x
}

// Whether a coordinate is outside its limits.
#[tactic(auto, unfolding(crate::specs::Range::is_out))]
pub fn is_out(x: i32) -> bool
    ensures { result ≡ is_out x }
{
    exceeds(x, -8191, 8191)
}

// A number in 64 bits.
pub fn widen(x: i32) -> i64
    ensures { result ≡ x }
{
    i64::from(x)
}

// Entry k of a run of coordinates.
pub fn entry(run: &[i32], k: usize) -> i64
    requires { InRange run.now × (k < length run.now) }
    ensures { Exact limit (get_or run.now k (pos 0)) result }
{
    widen(run[k])
}

// Coordinate k of vertex v: every reading of a point goes through here.
#[tactic(auto, unfolding(crate::specs::Points::coord_of))]
pub fn coord(points: &[i32], v: usize, k: usize) -> i32
    requires { Vertex points.now v × (k < 3) }
    ensures { result ≡ coord_of points.now v k }
{
    points[v * 3 + k]
}

// The same in 64 bits.
pub fn wide_coord(points: &[i32], v: usize, k: usize) -> i64
    requires { Ranged points.now × Vertex points.now v × (k < 3) }
    ensures { Exact limit (coord_of points.now v k) result }
{
    widen(coord(points, v, k))
}

// Coordinate k of the difference b-a.
#[tactic(auto, using(crate::specs::Range::difference_is), unfolding(crate::specs::Points::difference_of))]
fn difference(points: &[i32], a: u16, b: u16, k: usize) -> i64
    requires { Ranged points.now × Vertex points.now a × Vertex points.now b × (k < 3) }
    ensures { Exact longest (difference_of points.now a b k) result }
{
    wide_coord(points, usize::from(b), k) - wide_coord(points, usize::from(a), k)
}

// The row of the difference b-a.
pub fn row(points: &[i32], a: u16, b: u16) -> [i64; 3]
    requires { Ranged points.now × Vertex points.now a × Vertex points.now b }
    ensures { ExactRow longest (row_of points.now a b) result }
{
    [
        difference(points, a, b, 0),
        difference(points, a, b, 1),
        difference(points, a, b, 2),
    ]
}
