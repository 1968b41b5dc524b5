// Number 10, TURN: a facet's outline turns left at every corner.
#![tactic(auto)]

ghost use Rattle.std.specs.Prelude.{◌≡◌, ◌<◌, length};
ghost use Rattle.whole.specs.First.{found_below};
ghost use Rattle.points.specs.Points.{Vertex};
ghost use Rattle.space.specs.Rows.{BoundedRow, widest};
ghost use Rattle.sides.specs.Sides.{Three};
ghost use Rattle.tables.specs.Search.{place_of};
ghost use Rattle.flat.specs.Facet.{Facet, Measured};
ghost use Rattle.turn.specs.Rules.{strays, some_stray, is_turn, turn};

use tables::Place;

// Whether corner c, other than a and b, is not strictly left of the edge from a to b.
fn strays(points: &[i32], n: [i64; 3], a: u16, b: u16, c: u16) -> bool
    requires three { Three points.now a b c }
    requires bounded_row { BoundedRow widest n }
    ensures { result ≡ strays points.now n a b c }
{
    c != a && c != b && !sides::is_left(points, n, a, b, c)
}

// Whether some corner of a facet strays from the edge from a to b.
fn some_stray(points: &[i32], part: &[u16], n: [i64; 3], a: u16, b: u16) -> bool
    requires { Facet points.now part.now × BoundedRow widest n × Vertex points.now a × Vertex points.now b }
    ensures { result ≡ some_stray points.now part.now n a b }
{
    part.iter().any(|&c| strays(points, n, a, b, c))
}

// The first position of a facet at which TURN applies.
fn first_turn(points: &[i32], part: &[u16]) -> Option<usize>
    requires { Facet points.now part.now }
    ensures { result ≡ found_below (is_turn points.now part.now) (length part.now) }
{
    let n = sides::normal(points, part[0], part[1], part[2]);
    (0..part.len()).find(|&p| some_stray(points, part, n, part[p], flat::corner_after(part, p)))
}

// Number 10, TURN: its first place.
#[tactic(auto, using(flat::specs::Facet::facet))]
pub fn turn(points: &[i32], corners: &[u16], begins: &[u16]) -> Option<Place>
    requires { Measured points.now corners.now begins.now }
    ensures { result ≡ place_of (turn points.now corners.now begins.now) }
{
    tables::first_place(begins.len() - 1, |f| {
        first_turn(points, tables::part(corners, begins, f))
    })
}
