// The judge of a solid.
#![tactic(auto)]

ghost use Rattle.std.specs.Prelude.{◌≡◌};
ghost use Rattle.answers.specs.Answer.{fault_number};
ghost use Rattle.answers.specs.Order.{first_of};
ghost use Rattle.index.specs.Entries.{Fresh};
ghost use Rattle.stages.specs.HandsOut.{HandsOut};
ghost use Rattle.judge.specs.Judge.{rules, judged};

use answers::{Answer, Fault};
use index::Index;
use refusals::Refusal;

// The first fault of all.
#[tactic(auto, using(crate::specs::Stages::early, crate::specs::Stages::rest), unfolding(answers::specs::Order::first_of))]
fn first_fault(
    points: &[i32],
    corners: &[u16],
    begins: &[u16],
    index: &mut Index,
) -> Result<(), Fault>
    requires { Fresh index.old.edges index.old.heads }
    ensures first { result ≡ first_of (rules points.now corners.now begins.now) }
    ensures index { HandsOut (fault_number result) corners.now begins.now index.new.edges index.new.heads }
{
    stages::up_to_turn(points, corners, begins, index)?;
    let reflex = reflex::reflex(points, corners, begins, index);
    answers::pass(Refusal::Reflex, reflex)?;
    let outside = outside::outside(points, corners, begins, index);
    answers::pass(Refusal::Outside, outside)
}

// The judge of a solid, and the index of its edges in one that is lent blank and stays so at 1 to 5.
pub fn judge_with_index(
    points: &[i32],
    corners: &[u16],
    begins: &[u16],
    index: &mut Index,
) -> Answer
    requires { Fresh index.old.edges index.old.heads }
    ensures answer { result ≡ judged points.now corners.now begins.now }
    ensures index { HandsOut result.number corners.now begins.now index.new.edges index.new.heads }
{
    let outcome = first_fault(points, corners, begins, index);
    Answer::of(points, corners, begins, outcome)
}

// The judge of a solid: its one answer to the three lent tables, which are only read.
pub fn judge(points: &[i32], corners: &[u16], begins: &[u16]) -> Answer
    ensures { result ≡ judged points.now corners.now begins.now }
{
    let mut index = Index::BLANK;
    judge_with_index(points, corners, begins, &mut index)
}
