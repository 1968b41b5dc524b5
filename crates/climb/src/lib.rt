// One step of the walk, and steps until none rises.
#![tactic(auto)]

ghost use Rattle.std.specs.Prelude.{◌≡◌};
ghost use Rattle.points.specs.Points.{Vertex, Ranged};
ghost use Rattle.direction.specs.Direction.{Permitted};
ghost use Rattle.climb.specs.Move.{begin, Steps};
ghost use Rattle.climb.specs.Best.{Best};
ghost use Rattle.climb.specs.Ready.{Ready};
ghost use Rattle.climb.specs.Climb.{Climbs, Climbed};

// The walk as it stands: its direction, the present vertex with its height, and the moves so far.
#[derive(Clone, Copy)]
pub struct Standing {
    pub direction: direction::Direction,
    pub spot: height::Spot,
    pub moves: usize,
}

// The highest of the present vertex and its neighbours, the lowest number among equals: along the chain of the vertex.
fn highest(
    points: &[i32],
    corners: &[u16],
    begins: &[u16],
    index: &index::Index,
    here: Standing,
) -> height::Spot
    requires { Ready points.now corners.now begins.now index.now.edges index.now.heads here }
    ensures { Best points.now corners.now begins.now here.direction here.spot.vertex 0 result }
{
    let mut best = here.spot;
    let mut q = index.head(usize::from(best.vertex));
    while 0 < q {
        let p = q - 1;
        let next = height::Spot::at(points, here.direction, index.end(p));
        best = height::better(best, next);
        q = index.back(p);
    }
    best
}

impl Standing {
    // Where a walk begins.
    pub fn begin(points: &[i32], direction: direction::Direction, start: u16) -> Self
        requires { Ranged points.now × Vertex points.now start × Permitted direction }
        ensures { result ≡ begin points.now direction start }
    {
        Self {
            direction,
            spot: height::Spot::at(points, direction, start),
            moves: 0,
        }
    }

    // One step: to the highest neighbour if it is strictly higher, else none.
    fn step(
        self,
        points: &[i32],
        corners: &[u16],
        begins: &[u16],
        index: &index::Index,
    ) -> Option<Self>
        requires { Ready points.now corners.now begins.now index.now.edges index.now.heads self }
        ensures { Steps points.now corners.now begins.now self result }
    {
        let best = highest(points, corners, begins, index, self);
        if height::is_above(best, self.spot) {
            Some(Self {
                spot: best,
                moves: self.moves + 1,
                ..self
            })
        } else {
            None
        }
    }

    // Walks until no neighbour is strictly higher, and lists the vertices stood on.
    pub fn climb(
        self,
        points: &[i32],
        corners: &[u16],
        begins: &[u16],
        index: &index::Index,
        trail: &mut [u16],
    ) -> Self
        requires { Climbs points.now corners.now begins.now index.now.edges index.now.heads self trail.old }
        ensures { Climbed points.now corners.now begins.now self trail.old result trail.new }
    {
        trail[0] = self.spot.vertex;
        let mut here = self;
        while let Some(next) = here.step(points, corners, begins, index) {
            here = next;
            trail[here.moves] = here.spot.vertex;
        }
        here
    }
}
