// A facet's plane and edges, and number 9, BENT.
#![tactic(auto)]

ghost use Rattle.std.specs.Prelude.{◌≡◌, ◌<◌, length};
ghost use Rattle.whole.specs.First.{found_below};
ghost use Rattle.points.specs.Points.{Vertex};
ghost use Rattle.tables.specs.Search.{place_of};
ghost use Rattle.flat.specs.Facet.{Facet, Measured, corner_after};
ghost use Rattle.flat.specs.Rules.{side_at, is_bent, bent};

use tables::Place;

// The side of a facet's plane that vertex v is on.
pub fn side_at(points: &[i32], part: &[u16], v: u16) -> sides::Side
    requires { Facet points.now part.now × Vertex points.now v }
    ensures { result ≡ side_at points.now part.now v }
{
    sides::side_of(points, part[0], part[1], part[2], v)
}

// Where the edge at position p of a facet ends: the last one wraps.
pub fn corner_after(part: &[u16], p: usize) -> u16
    requires { p < length part.now }
    ensures { result ≡ corner_after part.now p }
{
    part.get(p + 1).copied().unwrap_or(part[0])
}

// The first position of a facet at which BENT applies.
fn first_bent(points: &[i32], part: &[u16]) -> Option<usize>
    requires { Facet points.now part.now }
    ensures { result ≡ found_below (is_bent points.now part.now) (length part.now) }
{
    if sides::in_line(points, part[0], part[1], part[2]) {
        return Some(2);
    }
    (3..part.len()).find(|&p| !sides::is_on(side_at(points, part, part[p])))
}

// Number 9, BENT: its first place.
#[tactic(auto, using(crate::specs::Facet::facet))]
pub fn bent(points: &[i32], corners: &[u16], begins: &[u16]) -> Option<Place>
    requires { Measured points.now corners.now begins.now }
    ensures { result ≡ place_of (bent points.now corners.now begins.now) }
{
    tables::first_place(begins.len() - 1, |f| {
        first_bent(points, tables::part(corners, begins, f))
    })
}
