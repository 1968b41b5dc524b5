// Number 7, RING: the facets at each vertex make one ring.
#![tactic(auto)]

ghost use Rattle.std.specs.Prelude.{◌≡◌, ◌≤◌, ◌<◌, length};
ghost use Rattle.tables.specs.Tables.{most_vertices};
ghost use Rattle.tables.specs.Search.{place_of};
ghost use Rattle.pair.specs.Across.{Crossed};
ghost use Rattle.ring.specs.Step.{round_of};
ghost use Rattle.ring.specs.Ring.{broken, ring};

// The step round a vertex from place p: across the edge that leaves it, and on to the next of that facet.
fn round(corners: &[u16], begins: &[u16], index: &index::Index, p: usize) -> usize
    requires crossed { Crossed corners.now begins.now index.now.edges index.now.heads }
    requires place { p < length corners.now }
    ensures { result ≡ round_of corners.now begins.now p }
{
    let q = index.across(p);
    edges::next_in(begins, index.home(q), q)
}

// RING at vertex v: stepping comes back before the chain of v ends.
fn broken(corners: &[u16], begins: &[u16], index: &index::Index, v: usize) -> bool
    requires crossed { Crossed corners.now begins.now index.now.edges index.now.heads }
    requires vertex { v < most_vertices }
    ensures { result ≡ broken corners.now begins.now v }
{
    let head = index.head(v);
    if head == 0 {
        return false;
    }
    let p = head - 1;
    let mut q = p;
    let mut k = index.back(p);
    while 0 < k {
        q = round(corners, begins, index, q);
        if q == p {
            return true;
        }
        k = index.back(k - 1);
    }
    false
}

// Number 7, RING: its first place; n is V.
pub fn ring(
    corners: &[u16],
    begins: &[u16],
    index: &index::Index,
    n: usize,
) -> Option<tables::Place>
    requires crossed { Crossed corners.now begins.now index.now.edges index.now.heads }
    requires vertices { n ≤ most_vertices }
    ensures { result ≡ place_of (ring n corners.now begins.now) }
{
    tables::lowest(n, |v| broken(corners, begins, index, v))
}
