// Number 6, PAIR, over the index of the edges.
#![tactic(auto)]

ghost use Rattle.std.specs.Prelude.{◌≡◌, ◌<◌, length};
ghost use Rattle.whole.specs.First.{any_below};
ghost use Rattle.tables.specs.Tables.{most_vertices};
ghost use Rattle.tables.specs.Search.{place_of};
ghost use Rattle.edges.specs.Index.{Leaving, Indexed};
ghost use Rattle.pair.specs.Pair.{times, unpaired, pair};
ghost use Rattle.pair.specs.Answered.{unanswered};

// How often the directed edge from a to b occurs: along the chain of a.
fn times(corners: &[u16], begins: &[u16], index: &index::Index, a: u16, b: u16) -> usize
    requires leaving { Leaving corners.now begins.now index.now.edges index.now.heads }
    requires vertex { a < most_vertices }
    ensures { result ≡ times corners.now begins.now a b }
{
    let mut n = 0;
    let mut q = index.head(usize::from(a));
    while 0 < q {
        let p = q - 1;
        n += usize::from(index.end(p) == b);
        q = index.back(p);
    }
    n
}

// PAIR at place p.
fn unpaired(corners: &[u16], begins: &[u16], index: &index::Index, p: usize) -> bool
    requires indexed { Indexed corners.now begins.now index.now.edges index.now.heads }
    requires place { p < length corners.now }
    ensures { result ≡ unpaired corners.now begins.now p }
{
    let a = corners[p];
    let b = index.end(p);
    1 < times(corners, begins, index, a, b) || times(corners, begins, index, b, a) != 1
}

// Whether the place across from p isn't one of the reverse of its edge, or has another place across from it.
fn is_unanswered(corners: &[u16], begins: &[u16], index: &index::Index, p: usize) -> bool
    requires indexed { Indexed corners.now begins.now index.now.edges index.now.heads }
    requires place { p < length corners.now }
    ensures { result ≡ unanswered corners.now begins.now p }
{
    let q = index.across(p);
    index.across(q) != p || corners[q] != index.end(p) || index.end(q) != corners[p]
}

// Whether some place is unanswered.
fn some_unanswered(corners: &[u16], begins: &[u16], index: &index::Index) -> bool
    requires { Indexed corners.now begins.now index.now.edges index.now.heads }
    ensures { result ≡ any_below (unanswered corners.now begins.now) (length corners.now) }
{
    (0..corners.len()).any(|p| is_unanswered(corners, begins, index, p))
}

// PAIR place by place.
fn first_unpaired(corners: &[u16], begins: &[u16], index: &index::Index) -> Option<tables::Place>
    requires { Indexed corners.now begins.now index.now.edges index.now.heads }
    ensures { result ≡ place_of (pair corners.now begins.now) }
{
    for p in 0..corners.len() {
        if unpaired(corners, begins, index, p) {
            let f = index.home(p);
            return Some((f, p - usize::from(begins[f])));
        }
    }
    None
}

// Number 6, PAIR: its first place. Where every place is answered it applies nowhere, so edges are counted only where one isn't.
pub fn pair(corners: &[u16], begins: &[u16], index: &index::Index) -> Option<tables::Place>
    requires { Indexed corners.now begins.now index.now.edges index.now.heads }
    ensures { result ≡ place_of (pair corners.now begins.now) }
{
    if some_unanswered(corners, begins, index) {
        first_unpaired(corners, begins, index)
    } else {
        None
    }
}
