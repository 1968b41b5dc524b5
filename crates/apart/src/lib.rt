// Number 8, APART: every facet is reached from facet 0 across edges.
#![tactic(auto)]

ghost use Rattle.std.specs.Prelude.{◌≡◌};
ghost use Rattle.whole.specs.Flood.{Unmarked, Pushing, Push};
ghost use Rattle.tables.specs.Tables.{most_facets, end};
ghost use Rattle.tables.specs.Search.{place_of};
ghost use Rattle.pair.specs.Across.{Crossed};
ghost use Rattle.apart.specs.Apart.{apart};
ghost use Rattle.apart.specs.Flooding.{Visit, Spreading, ReachMarks};

// The facets that were reached: a mark for each, and these in the order in which they were reached.
#[derive(Drop)]
struct Flood {
    marks: [bool; tables::MOST_FACETS],
    queue: [u16; tables::MOST_FACETS],
    tail: usize,
}

impl Flood {
    // Marks facet g and puts it at the queue's end, unless it is marked already.
    fn push(&mut self, g: usize)
        requires { Pushing most_facets self.old.marks self.old.tail g }
        ensures { Push self.old.marks self.old.queue self.old.tail g
            self.new.marks self.new.queue self.new.tail }
    {
        if !self.marks[g] {
            self.marks[g] = true;
            self.queue[self.tail] = g as u16;
            self.tail += 1;
        }
    }

    // The visit of facet f: the facets across its edges are pushed.
    fn spread(&mut self, begins: &[u16], index: &index::Index, f: usize)
        requires { Visit begins.now index.now.edges self.old.marks self.old.queue self.old.tail f }
        ensures { Spreading begins.now index.now.edges f (end begins.now f)
            self.old.marks self.old.queue self.old.tail
            self.new.marks self.new.queue self.new.tail }
    {
        let begin = usize::from(begins[f]);
        let end = usize::from(begins[f + 1]);
        for p in begin..end {
            let q = index.across(p);
            let g = index.home(q);
            self.push(g);
        }
    }

    // Marks each facet that is reached from facet 0 across edges.
    fn reach(&mut self, corners: &[u16], begins: &[u16], index: &index::Index)
        requires crossed { Crossed corners.now begins.now index.now.edges index.now.heads }
        requires unmarked { Unmarked most_facets self.old.marks self.old.queue }
        requires empty { self.old.tail ≡ 0 }
        ensures { ReachMarks corners.now begins.now self.new.marks }
    {
        self.push(0);
        let mut head = 0;
        while head < self.tail {
            let f = usize::from(self.queue[head]);
            self.spread(begins, index, f);
            head += 1;
        }
    }
}

// Number 8, APART: its first place.
pub fn apart(corners: &[u16], begins: &[u16], index: &index::Index) -> Option<tables::Place>
    requires { Crossed corners.now begins.now index.now.edges index.now.heads }
    ensures { result ≡ place_of (apart corners.now begins.now) }
{
    let mut flood = Flood {
        marks: [false; tables::MOST_FACETS],
        queue: [0; tables::MOST_FACETS],
        tail: 0,
    };
    flood.reach(corners, begins, index);
    tables::lowest(begins.len() - 1, |f| !flood.marks[f])
}
