// The index of the edges: of each place of the run its facet, where its edge ends, the place across and the link to the place before in its chain.
#![tactic(auto)]

ghost use Rattle.std.specs.Prelude.{◌≡◌, ◌+◌, ◌-◌, ◌<◌, length};
ghost use Rattle.tables.specs.Tables.{most_vertices, next_in};
ghost use Rattle.tables.specs.Places.{In};
ghost use Rattle.index.specs.Entries.{Fresh};
ghost use Rattle.edges.specs.Homes.{home_on};
ghost use Rattle.edges.specs.Edge.{last_edge, place_at};
ghost use Rattle.edges.specs.Index.{RowsHeld, Indexable, Indexed, Leaving};

// The facet of place p, where f is that of the place before, or the first.
fn home_on(begins: &[u16], f: usize, p: usize) -> usize
    requires { f + 1 < length begins.now }
    ensures { result ≡ home_on begins.now f p }
{
    if usize::from(begins[f + 1]) == p {
        f + 1
    } else {
        f
    }
}

// The next place after p in facet f.
pub fn next_in(begins: &[u16], f: usize, p: usize) -> usize
    requires { In begins.now f p }
    ensures { result ≡ next_in begins.now f p }
{
    let end = usize::from(begins[f + 1]);
    if p + 1 == end {
        usize::from(begins[f])
    } else {
        p + 1
    }
}

// Lists the places: the edge of each but for the place across, and the chains of those that leave each vertex.
fn list(corners: &[u16], begins: &[u16], index: &mut index::Index)
    requires indexable { Indexable corners.now begins.now }
    requires fresh { Fresh index.old.edges index.old.heads }
    ensures { RowsHeld corners.now begins.now (length corners.now) 0 index.new.edges index.new.heads }
{
    let mut f = 0;
    for (p, &corner) in corners.iter().enumerate() {
        f = home_on(begins, f, p);
        let end = corners[next_in(begins, f, p)];
        let v = usize::from(corner);
        index.edges[p] = index::Edge {
            home: f as u16,
            end,
            across: 0,
            back: index.heads[v],
        };
        index.heads[v] = (p + 1) as u16;
    }
}

// The last place of the directed edge from a to b: along the chain of a.
fn last_edge(corners: &[u16], begins: &[u16], index: &index::Index, a: u16, b: u16) -> Option<usize>
    requires leaving { Leaving corners.now begins.now index.now.edges index.now.heads }
    requires vertex { a < most_vertices }
    ensures { result ≡ place_at (last_edge corners.now begins.now a b) }
{
    let mut q = index.head(usize::from(a));
    while 0 < q {
        let p = q - 1;
        if index.end(p) == b {
            return Some(p);
        }
        q = index.back(p);
    }
    None
}

// Finds for each place the one across: the last of the reverse of its edge.
fn cross(corners: &[u16], begins: &[u16], index: &mut index::Index)
    requires indexable { Indexable corners.now begins.now }
    requires rows_held { RowsHeld corners.now begins.now (length corners.now) 0 index.old.edges index.old.heads }
    ensures { Indexed corners.now begins.now index.new.edges index.new.heads }
{
    for (p, &start) in corners.iter().enumerate() {
        let end = index.end(p);
        let q = last_edge(corners, begins, index, end, start);
        index.edges[p].across = q.unwrap_or(0) as u16;
    }
}

// Builds the index of the edges in one that is lent blank: one that is returned would be copied.
pub fn build(corners: &[u16], begins: &[u16], index: &mut index::Index)
    requires indexable { Indexable corners.now begins.now }
    requires fresh { Fresh index.old.edges index.old.heads }
    ensures { Indexed corners.now begins.now index.new.edges index.new.heads }
{
    list(corners, begins, index);
    cross(corners, begins, index);
}
