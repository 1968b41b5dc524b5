// OUTSIDE facet by facet, vertex by vertex.
#![tactic(auto)]

ghost use Rattle.std.specs.Prelude.{◌≡◌, ◌≤◌};
ghost use Rattle.whole.specs.First.{found_below};
ghost use Rattle.points.specs.Points.{vertices, Vertex};
ghost use Rattle.tables.specs.Tables.{most_vertices};
ghost use Rattle.tables.specs.Search.{place_of};
ghost use Rattle.flat.specs.Facet.{Facet, Measured};
ghost use Rattle.scan.specs.Rules.{is_outside, outside};

use tables::Place;

// OUTSIDE at vertex v of a facet.
#[tactic(auto, unfolding(crate::specs::Rules::is_outside))]
pub fn is_outside(points: &[i32], part: &[u16], v: u16) -> bool
    requires { Facet points.now part.now × Vertex points.now v }
    ensures { result ≡ is_outside points.now part.now v }
{
    !sides::is_inside(flat::side_at(points, part, v)) && !part.iter().any(|&c| c == v)
}

// The first vertex to which OUTSIDE applies in a facet.
fn first_outside(points: &[i32], part: &[u16]) -> Option<usize>
    requires { Facet points.now part.now × (vertices points.now ≤ most_vertices) }
    ensures { result ≡ found_below (is_outside points.now part.now) (vertices points.now) }
{
    (0..points.len() / 3).find(|&v| is_outside(points, part, v as u16))
}

// The first place of OUTSIDE.
#[tactic(auto, using(flat::specs::Facet::facet))]
pub fn scan(points: &[i32], corners: &[u16], begins: &[u16]) -> Option<Place>
    requires { Measured points.now corners.now begins.now }
    ensures { result ≡ place_of (outside points.now corners.now begins.now) }
{
    tables::first_place(begins.len() - 1, |f| {
        first_outside(points, tables::part(corners, begins, f))
    })
}
