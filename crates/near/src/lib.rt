// OUTSIDE at the neighbours of each facet's corners.
#![tactic(auto)]

ghost use Rattle.std.specs.Prelude.{◌≡◌, ◌<◌};
ghost use Rattle.points.specs.Points.{Vertex};
ghost use Rattle.tables.specs.Tables.{facets};
ghost use Rattle.flat.specs.Facet.{Facet};
ghost use Rattle.near.specs.Near.{Neighboured, is_near, near_facet, near};

use index::Index;

// Whether OUTSIDE applies to a neighbour of v in a facet: along the chain of v.
fn is_near(
    points: &[i32],
    corners: &[u16],
    begins: &[u16],
    index: &Index,
    part: &[u16],
    v: u16,
) -> bool
    requires neighboured { Neighboured points.now corners.now begins.now index.now.edges index.now.heads }
    requires facet { Facet points.now part.now }
    requires vertex { Vertex points.now v }
    ensures { result ≡ is_near points.now corners.now begins.now part.now v }
{
    let mut q = index.head(usize::from(v));
    while 0 < q {
        let p = q - 1;
        if scan::is_outside(points, part, index.end(p)) {
            return true;
        }
        q = index.back(p);
    }
    false
}

// Whether OUTSIDE applies to a neighbour of some corner of facet f.
fn near_part(points: &[i32], corners: &[u16], begins: &[u16], index: &Index, f: usize) -> bool
    requires neighboured { Neighboured points.now corners.now begins.now index.now.edges index.now.heads }
    requires facet { f < facets begins.now }
    ensures { result ≡ near_facet points.now corners.now begins.now f }
{
    let part = tables::part(corners, begins, f);
    part.iter()
        .any(|&v| is_near(points, corners, begins, index, part, v))
}

// Whether OUTSIDE applies to a neighbour of some corner of some facet.
pub fn near(points: &[i32], corners: &[u16], begins: &[u16], index: &Index) -> bool
    requires { Neighboured points.now corners.now begins.now index.now.edges index.now.heads }
    ensures { result ≡ near points.now corners.now begins.now }
{
    (0..begins.len() - 1).any(|f| near_part(points, corners, begins, index, f))
}
