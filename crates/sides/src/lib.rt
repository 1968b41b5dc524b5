// Which side of a plane a point is on, and which side of an edge, by the determinant of three rows of three.
#![tactic(auto)]

ghost use Rattle.std.specs.Prelude.{◌≡◌};
ghost use Rattle.space.specs.Rows.{BoundedRow, ExactRow, widest};
ghost use Rattle.points.specs.Points.{Vertex};
ghost use Rattle.sides.specs.Sides.{Three, normal_of, sign, side_of, in_line, is_left, is_inside, is_on};

use std::cmp::Ordering;

// Where a point lies against a plane.
#[derive(Clone, Copy, PartialEq, Eq)]
pub enum Side {
    Inside,
    On,
    Outside,
}

// The side that the sign of a six-fold volume says.
fn sign(volume: i64) -> Side
    ensures { result ≡ sign volume }
{
    match volume.cmp(&0) {
        Ordering::Less => Side::Inside,
        Ordering::Equal => Side::On,
        Ordering::Greater => Side::Outside,
    }
}

// Whether a side is strictly inside.
pub fn is_inside(side: Side) -> bool
    ensures { result ≡ is_inside side }
{
    side == Side::Inside
}

// Whether a side is on the plane.
pub fn is_on(side: Side) -> bool
    ensures { result ≡ is_on side }
{
    side == Side::On
}

// The side of the plane through a, b and c that d is on.
pub fn side_of(points: &[i32], a: u16, b: u16, c: u16, d: u16) -> Side
    requires three { Three points.now a b c }
    requires vertex { Vertex points.now d }
    ensures { result ≡ side_of points.now a b c d }
{
    sign(rows::determinant([
        points::row(points, a, b),
        points::row(points, a, c),
        points::row(points, a, d),
    ]))
}

// The normal of the plane through a, b and c.
pub fn normal(points: &[i32], a: u16, b: u16, c: u16) -> [i64; 3]
    requires { Three points.now a b c }
    ensures { ExactRow widest (normal_of points.now a b c) result }
{
    rows::cross(points::row(points, a, b), points::row(points, a, c))
}

// Whether a, b and c lie in line: their plane's normal is nought.
pub fn in_line(points: &[i32], a: u16, b: u16, c: u16) -> bool
    requires { Three points.now a b c }
    ensures { result ≡ in_line points.now a b c }
{
    rows::is_nought(normal(points, a, b, c))
}

// Whether c lies strictly left of the edge from a to b, seen against the normal n.
pub fn is_left(points: &[i32], n: [i64; 3], a: u16, b: u16, c: u16) -> bool
    requires three { Three points.now a b c }
    requires bounded_row { BoundedRow widest n }
    ensures { result ≡ is_left points.now n a b c }
{
    space::is_above(rows::determinant([n, points::row(points, a, b), points::row(points, a, c)]))
}
