// Rows of three whole numbers: the determinant of three rows, and cross products.
#![tactic(auto)]

ghost use Rattle.std.specs.Prelude.{◌≡◌, ◌<◌};
ghost use Rattle.space.specs.Rows.{BoundedRow, ThreeRows, longest, widest, det_of};
ghost use Rattle.space.specs.Nought.{is_nought};
ghost use Rattle.rows.specs.Cross.{MinorAt, CrossProduct};

// The determinant of columns j and k of two rows, the first a normal or a difference, the second a difference.
fn minor_at(p: [i64; 3], q: [i64; 3], j: usize, k: usize) -> i64
    requires { BoundedRow widest p × BoundedRow longest q × (j < 3) × (k < 3) }
    ensures { MinorAt p q j k result }
{
    space::minor([p[j], p[k]], [q[j], q[k]])
}

// The cross product of a normal or a difference and a difference.
pub fn cross(p: [i64; 3], q: [i64; 3]) -> [i64; 3]
    requires { BoundedRow widest p × BoundedRow longest q }
    ensures { CrossProduct p q result }
{
    [
        minor_at(p, q, 1, 2),
        minor_at(p, q, 2, 0),
        minor_at(p, q, 0, 1),
    ]
}

// The determinant of three rows of three whole numbers, along the last row, so that the other two can be worked out once for many.
pub fn determinant(m: [[i64; 3]; 3]) -> i64
    requires { ThreeRows m }
    ensures { result ≡ det_of m }
{
    space::dot(cross(m[0], m[1]), m[2])
}

// Whether a vector is nought.
pub fn is_nought(n: [i64; 3]) -> bool
    requires { BoundedRow widest n }
    ensures { result ≡ is_nought n }
{
    n.iter().all(|x| space::is_zero(*x))
}
