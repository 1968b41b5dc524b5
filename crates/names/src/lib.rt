// Numbers 4 and 5, REPEAT and UNUSED: which vertices the facets name.
#![tactic(auto)]

ghost use Rattle.std.specs.Prelude.{◌≡◌, ◌≤◌, ◌<◌, length};
ghost use Rattle.whole.specs.First.{first_below, found_below};
ghost use Rattle.tables.specs.Tables.{most_vertices};
ghost use Rattle.names.specs.Rules.{is_at, again, repeat, unused};
ghost use Rattle.tables.specs.Size.{Laid};
ghost use Rattle.tables.specs.Places.{Named};
ghost use Rattle.tables.specs.Search.{place_of};
ghost use Rattle.names.specs.Marks.{Marks};

use tables::Place;

// The first position below n at which v stands, or n.
pub fn first_at(part: &[u16], v: u16, n: usize) -> usize
    requires { n ≤ length part.now }
    ensures { result ≡ first_below (is_at part.now v) n }
{
    (0..n).find(|&p| part[p] == v).unwrap_or(n)
}

// The first position whose corner stands at an earlier one too.
fn first_again(part: &[u16]) -> Option<usize>
    ensures { result ≡ found_below (again part.now) (length part.now) }
{
    (0..part.len()).find(|&p| first_at(part, part[p], p) < p)
}

// Number 4, REPEAT: its first place.
pub fn repeat(corners: &[u16], begins: &[u16]) -> Option<Place>
    requires { Laid corners.now begins.now }
    ensures { result ≡ place_of (repeat corners.now begins.now) }
{
    tables::first_place(begins.len() - 1, |f| {
        first_again(tables::part(corners, begins, f))
    })
}

// Whether the run names each vertex.
fn marks(corners: &[u16]) -> [bool; tables::MOST_VERTICES]
    requires { Named most_vertices corners.now }
    ensures { Marks corners.now result (length corners.now) }
{
    let mut named = [false; tables::MOST_VERTICES];
    for &corner in corners {
        named[usize::from(corner)] = true;
    }
    named
}

// Number 5, UNUSED: its first place, in one pass over the run and one over the vertices.
pub fn unused(corners: &[u16], n: usize) -> Option<Place>
    requires { Named n corners.now }
    ensures { result ≡ place_of (unused n corners.now) }
{
    let named = marks(corners);
    tables::lowest(n, |v| !named[v])
}
