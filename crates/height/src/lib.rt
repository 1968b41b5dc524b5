// Heights along a direction, and the higher of two spots.
#![tactic(auto)]

ghost use Rattle.std.specs.Prelude.{◌≡◌};
ghost use Rattle.std.specs.Int.Signed.{lt_z};
ghost use Rattle.whole.specs.Bounds.{◌within◌, Exact};
ghost use Rattle.space.specs.Rows.{largest};
ghost use Rattle.points.specs.Points.{Vertex, Ranged};
ghost use Rattle.direction.specs.Direction.{steepest, Permitted};
ghost use Rattle.height.specs.Height.{height, spot, better};

// A part of a permitted direction in 64 bits.
fn wide_part(x: i32) -> i64
    requires { x within steepest }
    ensures { Exact steepest x result }
{
    i64::from(x)
}

// The height of vertex v.
fn height(points: &[i32], direction: direction::Direction, v: usize) -> i64
    requires { Ranged points.now × Vertex points.now v × Permitted direction }
    ensures { Exact largest (height points.now direction v) result }
{
    space::dot(
        [
            wide_part(direction.x),
            wide_part(direction.y),
            wide_part(direction.z),
        ],
        [
            points::wide_coord(points, v, 0),
            points::wide_coord(points, v, 1),
            points::wide_coord(points, v, 2),
        ],
    )
}

// A vertex and its height.
#[derive(Clone, Copy)]
pub struct Spot {
    pub vertex: u16,
    pub height: i64,
}

impl Spot {
    pub fn at(points: &[i32], direction: direction::Direction, v: u16) -> Self
        requires { Ranged points.now × Vertex points.now v × Permitted direction }
        ensures { result ≡ spot points.now direction v }
    {
        Self {
            vertex: v,
            height: height(points, direction, usize::from(v)),
        }
    }
}

// Whether a spot is strictly higher than another.
pub fn is_above(a: Spot, b: Spot) -> bool
    ensures { result ≡ lt_z b.height a.height }
{
    b.height < a.height
}

// The higher of two, the lower number among equals.
pub fn better(best: Spot, next: Spot) -> Spot
    ensures { result ≡ better best next }
{
    if is_above(next, best) || !is_above(best, next) && next.vertex < best.vertex {
        next
    } else {
        best
    }
}
