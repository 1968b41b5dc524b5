// Numbers 1 to 10 in their order: the judge's stage before REFLEX, which hands out the index of the edges.
#![tactic(auto)]

ghost use Rattle.std.specs.Prelude.{◌≡◌};
ghost use Rattle.answers.specs.Answer.{fault_number};
ghost use Rattle.answers.specs.Order.{first_of};
ghost use Rattle.index.specs.Entries.{Fresh};
ghost use Rattle.stages.specs.Rules.{rules_to_turn};
ghost use Rattle.stages.specs.HandsOut.{HandsOut};

use answers::Fault;
use refusals::Refusal;

// Numbers 1 to 10: the first fault. The index, which is lent blank, stays so at 1 to 5; else it holds the edges.
#[tactic(auto, using(crate::specs::Known::checked, crate::specs::Known::rest, answers::specs::Order::first_append), unfolding(answers::specs::Order::first_of))]
pub fn up_to_turn(
    points: &[i32],
    corners: &[u16],
    begins: &[u16],
    index: &mut index::Index,
) -> Result<(), Fault>
    requires { Fresh index.old.edges index.old.heads }
    ensures first { result ≡ first_of (rules_to_turn points.now corners.now begins.now) }
    ensures index { HandsOut (fault_number result) corners.now begins.now index.new.edges index.new.heads }
{
    let n = points.len() / 3;
    limits::check(points, corners, begins)?;
    answers::pass(Refusal::Repeat, names::repeat(corners, begins))?;
    answers::pass(Refusal::Unused, names::unused(corners, n))?;
    edges::build(corners, begins, index);
    answers::pass(Refusal::Pair, pair::pair(corners, begins, index))?;
    answers::pass(Refusal::Ring, ring::ring(corners, begins, index, n))?;
    answers::pass(Refusal::Apart, apart::apart(corners, begins, index))?;
    answers::pass(Refusal::Bent, flat::bent(points, corners, begins))?;
    answers::pass(Refusal::Turn, turn::turn(points, corners, begins))
}
