// Number 11, REFLEX: the fold at each edge.
#![tactic(auto)]

ghost use Rattle.std.specs.Prelude.{◌≡◌, ◌<◌, length};
ghost use Rattle.whole.specs.First.{found_below};
ghost use Rattle.points.specs.Points.{Vertex};
ghost use Rattle.tables.specs.Tables.{facets, sides, facet_of};
ghost use Rattle.tables.specs.Search.{place_of};
ghost use Rattle.edges.specs.Edge.{facet_across};
ghost use Rattle.pair.specs.Across.{Crossed};
ghost use Rattle.flat.specs.Facet.{Facet};
ghost use Rattle.reflex.specs.Rules.{is_not_inside, some_not_inside, folds, is_reflex, reflex};
ghost use Rattle.reflex.specs.Fold.{Foldable};

use index::Index;
use tables::Place;

// Whether corner c, other than a and b, is not strictly inside a facet's plane.
fn is_not_inside(points: &[i32], part: &[u16], a: u16, b: u16, c: u16) -> bool
    requires { Facet points.now part.now × Vertex points.now c }
    ensures { result ≡ is_not_inside points.now part.now a b c }
{
    c != a && c != b && !sides::is_inside(flat::side_at(points, part, c))
}

// Whether some corner of a facet's part `other`, other than a and b, is not strictly inside a facet's plane.
fn some_not_inside(points: &[i32], part: &[u16], other: &[u16], a: u16, b: u16) -> bool
    requires { Facet points.now part.now × Facet points.now other.now }
    ensures { result ≡ some_not_inside points.now part.now other.now a b }
{
    other.iter().any(|&c| is_not_inside(points, part, a, b, c))
}

// REFLEX at position p of a facet; `other` is the facet across.
#[tactic(auto, unfolding(crate::specs::Rules::folds))]
fn is_reflex(points: &[i32], part: &[u16], other: &[u16], p: usize) -> bool
    requires { Facet points.now part.now × Facet points.now other.now × (p < length part.now) }
    ensures { result ≡ folds points.now part.now other.now p }
{
    some_not_inside(points, part, other, part[p], flat::corner_after(part, p))
}

// The part of the run that has the corners of the facet across the edge at place q.
fn part_across<'a>(corners: &'a [u16], begins: &[u16], index: &Index, q: usize) -> &'a [u16]
    requires crossed { Crossed corners.now begins.now index.now.edges index.now.heads }
    requires place { q < length corners.now }
    ensures { result.now ≡ facet_of corners.now begins.now (facet_across corners.now begins.now q) }
{
    tables::part(corners, begins, index.home(index.across(q)))
}

// The first position of facet f at which REFLEX applies.
fn first_reflex(
    points: &[i32],
    corners: &[u16],
    begins: &[u16],
    index: &Index,
    f: usize,
) -> Option<usize>
    requires foldable { Foldable points.now corners.now begins.now index.now.edges index.now.heads }
    requires facet { f < facets begins.now }
    ensures { result ≡ found_below (is_reflex points.now corners.now begins.now f) (sides begins.now f) }
{
    let part = tables::part(corners, begins, f);
    let start = usize::from(begins[f]);
    (0..part.len()).find(|&p| {
        let other = part_across(corners, begins, index, start + p);
        is_reflex(points, part, other, p)
    })
}

// Number 11, REFLEX: its first place.
pub fn reflex(points: &[i32], corners: &[u16], begins: &[u16], index: &Index) -> Option<Place>
    requires { Foldable points.now corners.now begins.now index.now.edges index.now.heads }
    ensures { result ≡ place_of (reflex points.now corners.now begins.now) }
{
    tables::first_place(begins.len() - 1, |f| {
        first_reflex(points, corners, begins, index, f)
    })
}
