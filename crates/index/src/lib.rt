// The index of the edges: what it holds of each place of the run and of each vertex.
#![tactic(auto)]

ghost use Rattle.std.specs.Prelude.{◌≡◌, ◌<◌};
ghost use Rattle.tables.specs.Tables.{most_vertices, most_corners};
ghost use Rattle.index.specs.Entries.{home_at, end_at, across_at, back_at, head_at};

// The edge at a place: its facet, the vertex at which it ends, the place across, the link to the place before it in its chain.
#[derive(Clone, Copy, PartialEq, Eq)]
pub struct Edge {
    pub home: u16,
    pub end: u16,
    pub across: u16,
    pub back: u16,
}

impl Edge {
    pub const BLANK: Self = Self {
        home: 0,
        end: 0,
        across: 0,
        back: 0,
    };
}

// The edge at each place, and for each vertex the link to the last place that leaves it. A link is one more than a place, or 0.
#[derive(Clone, Copy, PartialEq, Eq)]
pub struct Index {
    pub edges: [Edge; tables::MOST_CORNERS],
    pub heads: [u16; tables::MOST_VERTICES],
}

impl Index {
    // What is lent to be filled.
    pub const BLANK: Self = Self {
        edges: [Edge::BLANK; tables::MOST_CORNERS],
        heads: [0; tables::MOST_VERTICES],
    };

    // The facet of place p.
    pub fn home(&self, p: usize) -> usize
        requires { p < most_corners }
        ensures { result ≡ home_at self.now.edges p }
    {
        usize::from(self.edges[p].home)
    }

    // The vertex at which the edge of place p ends.
    pub fn end(&self, p: usize) -> u16
        requires { p < most_corners }
        ensures { result ≡ end_at self.now.edges p }
    {
        self.edges[p].end
    }

    // The place across from place p.
    pub fn across(&self, p: usize) -> usize
        requires { p < most_corners }
        ensures { result ≡ across_at self.now.edges p }
    {
        usize::from(self.edges[p].across)
    }

    // The link that follows place p in its chain.
    pub fn back(&self, p: usize) -> usize
        requires { p < most_corners }
        ensures { result ≡ back_at self.now.edges p }
    {
        usize::from(self.edges[p].back)
    }

    // The first link of the chain of vertex v.
    pub fn head(&self, v: usize) -> usize
        requires { v < most_vertices }
        ensures { result ≡ head_at self.now.heads v }
    {
        usize::from(self.heads[v])
    }
}
