// Numbers 2 and 3, RANGE and INDEX, and the check of 1 to 3 that judge and writer make first.
#![tactic(auto)]

ghost use Rattle.std.specs.Prelude.{◌≡◌, length};
ghost use Rattle.whole.specs.First.{found_below};
ghost use Rattle.points.specs.Points.{Vertex};
ghost use Rattle.answers.specs.Order.{first_of};
ghost use Rattle.tables.specs.Size.{Laid};
ghost use Rattle.tables.specs.Search.{place_of};
ghost use Rattle.limits.specs.Rules.{out_of_range, range, wild, index};
ghost use Rattle.limits.specs.InOrder.{limit_rules};

use answers::Fault;
use refusals::Refusal;
use tables::Place;

// RANGE at vertex v.
fn out_of_range(points: &[i32], v: usize) -> bool
    requires { Vertex points.now v }
    ensures { result ≡ out_of_range points.now v }
{
    points::is_out(points::coord(points, v, 0))
        || points::is_out(points::coord(points, v, 1))
        || points::is_out(points::coord(points, v, 2))
}

// Number 2, RANGE: its first place.
fn range(points: &[i32]) -> Option<Place>
    ensures { result ≡ place_of (range points.now) }
{
    tables::lowest(points.len() / 3, |v| out_of_range(points, v))
}

// The first position of a facet's part whose corner is V or more; n is V.
fn first_wild(part: &[u16], n: usize) -> Option<usize>
    ensures { result ≡ found_below (wild n part.now) (length part.now) }
{
    part.iter().position(|&x| n <= usize::from(x))
}

// Number 3, INDEX: its first place; n is V.
fn index(corners: &[u16], begins: &[u16], n: usize) -> Option<Place>
    requires { Laid corners.now begins.now }
    ensures { result ≡ place_of (index n corners.now begins.now) }
{
    tables::first_place(
        begins.len() - 1,
        |f| first_wild(tables::part(corners, begins, f), n),
    )
}

// Numbers 1 to 3 in their order: the first fault, or none where the tables' sizes, ranges and corner numbers are in order.
#[tactic(auto, using(tables::specs::Size::sized), unfolding(answers::specs::Order::first_of))]
pub fn check(points: &[i32], corners: &[u16], begins: &[u16]) -> Result<(), Fault>
    ensures { result ≡ first_of (limit_rules points.now corners.now begins.now) }
{
    answers::pass(
        Refusal::Size,
        tables::size(points, corners, begins).then_some((0, 0)),
    )?;
    answers::pass(Refusal::Range, range(points))?;
    answers::pass(Refusal::Index, index(corners, begins, points.len() / 3))
}
