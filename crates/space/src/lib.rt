// Exact arithmetic behind every side test: the determinant of two rows of two, sums of three products, and numbers against 0.
#![tactic(auto)]

ghost use Rattle.std.specs.Prelude.{◌≡◌};
ghost use Rattle.whole.specs.Bounds.{Exact};
ghost use Rattle.space.specs.Vectors.{◌·◌};
ghost use Rattle.space.specs.Rows.{BoundedRow, longest, widest, broadest, largest, Minored, vec_of};
ghost use Rattle.space.specs.Nought.{is_below, is_above, is_zero};

// The determinant of two rows of two, the first of a normal or a difference, the second of a difference.
pub fn minor(p: [i64; 2], q: [i64; 2]) -> i64
    requires { BoundedRow widest p × BoundedRow longest q }
    ensures { Minored p q result }
{
    p[0] * q[1] - p[1] * q[0]
}

// The sum of the products of two rows of three.
pub fn dot(n: [i64; 3], r: [i64; 3]) -> i64
    requires normal { BoundedRow broadest n }
    requires difference { BoundedRow longest r }
    ensures { Exact largest (vec_of n · vec_of r) result }
{
    n[0] * r[0] + n[1] * r[1] + n[2] * r[2]
}

// Whether a number is below 0.
pub fn is_below(x: i64) -> bool
    ensures { result ≡ is_below x }
{
    x < 0
}

// Whether a number is above 0.
pub fn is_above(x: i64) -> bool
    ensures { result ≡ is_above x }
{
    0 < x
}

// Whether a number is 0.
pub fn is_zero(x: i64) -> bool
    ensures { result ≡ is_zero x }
{
    x == 0
}
