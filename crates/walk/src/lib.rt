// The walk to a highest vertex of a solid that it judges first.
#![tactic(auto)]

ghost use Rattle.std.specs.Prelude.{◌≡◌};
ghost use Rattle.answers.specs.Answer.{refused};
ghost use Rattle.walk.specs.Walk.{halted, arrived, walked, trail_after};

use answers::Answer;
use climb::Standing;
use index::Index;
use refusals::Refusal;

// The walk's answer: the number and places beside the last vertex, its height, and the moves.
#[derive(Clone, Copy)]
pub struct Walked {
    pub answer: Answer,
    pub vertex: u16,
    pub height: i64,
    pub moves: usize,
}

impl Walked {
    fn halted(answer: Answer) -> Self
        ensures { result ≡ halted answer }
    {
        Self {
            answer,
            vertex: 0,
            height: 0,
            moves: 0,
        }
    }

    pub fn refused(number: u16) -> Self
        ensures { result ≡ halted (refused number) }
    {
        Self::halted(Answer::refused(number))
    }

    fn arrived(last: Standing) -> Self
        ensures { result ≡ arrived last }
    {
        Self {
            answer: Answer::passed(),
            vertex: last.spot.vertex,
            height: last.spot.height,
            moves: last.moves,
        }
    }
}

// The walk: from the start to a vertex than which none is higher, along the edges of a solid that it judges first.
pub fn walk(
    points: &[i32],
    corners: &[u16],
    begins: &[u16],
    direction: direction::Direction,
    start: usize,
    trail: &mut [u16],
) -> Walked
    ensures answer { result ≡ walked points.now corners.now begins.now direction start trail.old }
    ensures trail { trail.new ≡
        trail_after points.now corners.now begins.now direction start trail.old }
{
    let mut index = Index::BLANK;
    let answer = judge::judge_with_index(points, corners, begins, &mut index);
    if answer.number != 0 {
        return Walked::halted(answer);
    }
    let vertices = points.len() / 3;
    if vertices <= start {
        return Walked::refused(Refusal::Start.number());
    }
    if direction.is_wrong() {
        return Walked::refused(Refusal::Direction.number());
    }
    if trail.len() < vertices {
        return Walked::refused(Refusal::Trail.number());
    }
    let begin = Standing::begin(points, direction, start as u16);
    Walked::arrived(begin.climb(points, corners, begins, &index, trail))
}
