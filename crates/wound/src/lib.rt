// WOUND: no second point is far.
#![tactic(auto)]

ghost use Rattle.std.specs.Prelude.{◌≡◌};
ghost use Rattle.whole.specs.First.{found_below};
ghost use Rattle.points.specs.Range.{InRange};
ghost use Rattle.once_round.specs.Words.{count, Point, point, is_greater, far, wound};

// Whether point a is greater than point b: by x, then by y, which is read only where it decides.
#[tactic(auto, unfolding(once_round::specs::Words::is_greater))]
fn is_greater(points: &[i32], a: usize, b: usize) -> bool
    requires { InRange points.now × Point points.now a × Point points.now b }
    ensures { result ≡ is_greater (point points.now a) (point points.now b) }
{
    let ax = pairs::coord(points, a, 0);
    let bx = pairs::coord(points, b, 0);
    bx < ax || bx == ax && pairs::coord(points, b, 1) < pairs::coord(points, a, 1)
}

// Whether point i is greater than both its neighbours.
fn is_far(points: &[i32], i: usize) -> bool
    requires { InRange points.now × Point points.now i }
    ensures { result ≡ far points.now i }
{
    let n = points.len() / 2;
    is_greater(points, i, pairs::point_before(n, i))
        && is_greater(points, i, pairs::point_after(n, i))
}

// The second far point.
pub fn second_far(points: &[i32]) -> Option<usize>
    requires { InRange points.now }
    ensures { result ≡ found_below (wound points.now) (count points.now) }
{
    (0..points.len() / 2).filter(|&i| is_far(points, i)).nth(1)
}
