// The outline judge: the order of the refusals.
#![tactic(auto)]

ghost use Rattle.std.specs.Prelude.{◌≡◌};
ghost use Rattle.points.specs.Range.{InRange};
ghost use Rattle.once_round.specs.Words.{few};
ghost use Rattle.refusals.specs.Numbers.{number_of};
ghost use Rattle.outline.specs.Outline.{verdict, judged_turns, judged_outline};

use refusals::Refusal;

// The answer to an outline: the sheet's number, and the count or a point's number.
#[derive(Clone, Copy)]
pub struct Verdict {
    pub number: u16,
    pub place: usize,
}

impl Verdict {
    // A refusal, and the point that it names.
    fn refused(refusal: Refusal, place: usize) -> Self
        ensures { result ≡ verdict (number_of refusal) place }
    {
        Self {
            number: refusal.number(),
            place,
        }
    }
}

// Whether so many numbers are not in pairs, or their points too few or too many.
#[tactic(auto, unfolding(once_round::specs::Words::few))]
fn is_few(numbers: usize) -> bool
    ensures { result ≡ few numbers }
{
    numbers % 2 != 0 || numbers / 2 < 3 || 4096 < numbers / 2
}

// The answer to points within the limits: LEFT, WOUND or acceptance.
fn judge_turns(points: &[i32]) -> Verdict
    requires { InRange points.now }
    ensures { result ≡ judged_turns points.now }
{
    if let Some(place) = left::first_not_left(points) {
        return Verdict::refused(Refusal::Left, place);
    }
    if let Some(place) = wound::second_far(points) {
        return Verdict::refused(Refusal::Wound, place);
    }
    Verdict {
        number: 0,
        place: points.len() / 2,
    }
}

// The answer to the outline whose points are the pairs x, y of the lent numbers. The work is linear, after Theorem 5 of document 001:
// one pass for each of RANGE, LEFT and WOUND.
pub fn judge_outline(points: &[i32]) -> Verdict
    ensures { result ≡ judged_outline points.now }
{
    if is_few(points.len()) {
        return Verdict::refused(Refusal::Few, 0);
    }
    if let Some(place) = pairs::first_out(points) {
        return Verdict::refused(Refusal::Range, place);
    }
    judge_turns(points)
}
