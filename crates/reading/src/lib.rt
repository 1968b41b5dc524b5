// What every reader of tables shares: the room that must be lent to it, what it has read, and what it refuses.
#![tactic(auto)]

ghost use Rattle.std.specs.Prelude.{◌≡◌};
ghost use Rattle.refusals.specs.Numbers.{number_of};
ghost use Rattle.reading.specs.Answer.{refused_at};
ghost use Rattle.reading.specs.Room.{no_room};

pub const POINT_ROOM: usize = 3 * tables::MOST_VERTICES;

pub const CORNER_ROOM: usize = tables::MOST_CORNERS;

pub const BEGIN_ROOM: usize = tables::MOST_FACETS + 1;

// What was read: V, F and corners.
#[derive(Clone, Copy)]
pub struct Counts {
    pub vertices: usize,
    pub facets: usize,
    pub corners: usize,
}

// What was refused: a refusal's number, and its byte offset.
#[derive(Clone, Copy)]
pub struct Refused {
    pub number: u16,
    pub offset: usize,
}

impl Refused {
    pub fn at(refusal: refusals::Refusal, offset: usize) -> Self
        ensures { result ≡ refused_at (number_of refusal) offset }
    {
        Self {
            number: refusal.number(),
            offset,
        }
    }
}

// Whether a lent table is too short, by how many entries each has.
pub fn no_room(points: usize, corners: usize, begins: usize) -> bool
    ensures { result ≡ no_room points corners begins }
{
    points < POINT_ROOM || corners < CORNER_ROOM || begins < BEGIN_ROOM
}
