// The solid's three lent tables: their limits, number 1, SIZE, the facet look-up, and the first place at which a rule applies.
#![tactic(auto)]

ghost use Rattle.std.specs.Prelude.{◌≡◌, Bool, ℕ, ◌+◌, ◌≤◌, ◌<◌, length};
ghost use Rattle.whole.specs.First.{any_below};
ghost use Rattle.whole.specs.Lies.{Lies};
ghost use Rattle.tables.specs.Tables.{Widened, facets, begin, facet_of};
ghost use Rattle.tables.specs.Size.{wrong_lengths, wrong_ends, wrong_sides, is_size, Laid};
ghost use Rattle.tables.specs.Found.{lowest, Tests, first_place, Finds};
ghost use Rattle.tables.specs.LookUp.{look_up_at, look_up};

const LEAST_VERTICES: usize = 4;

pub const MOST_VERTICES: usize = 1024;

const LEAST_FACETS: usize = 4;

pub const MOST_FACETS: usize = 2048;

pub const MOST_CORNERS: usize = 6144;

const LEAST_SIDES: usize = 3;

pub const MOST_SIDES: usize = 12;

// Where a rule applies: a vertex and 0, or a facet and a position or vertex.
pub type Place = (usize, usize);

// SIZE, by how many entries the three tables have.
fn wrong_lengths(points: usize, corners: usize, begins: usize) -> bool
    ensures { result ≡ wrong_lengths points corners begins }
{
    points % 3 != 0
        || points / 3 < LEAST_VERTICES
        || MOST_VERTICES < points / 3
        || begins < LEAST_FACETS + 1
        || MOST_FACETS + 1 < begins
        || MOST_CORNERS < corners
}

// SIZE, at the two ends of the begins.
fn wrong_ends(corners: &[u16], begins: &[u16]) -> bool
    requires { 1 ≤ length begins.now }
    ensures { result ≡ wrong_ends corners.now begins.now }
{
    let last = begins.len() - 1;
    begins[0] != 0 || wide(begins[last]) != corners.len()
}

// A corner number or a begin as a place.
pub fn wide(x: u16) -> usize
    ensures { Widened x result }
{
    usize::from(x)
}

// SIZE, at facet f.
fn wrong_sides(begins: &[u16], f: usize) -> bool
    requires { f + 1 < length begins.now }
    ensures { result ≡ wrong_sides begins.now f }
{
    let begin = wide(begins[f]);
    let end = wide(begins[f + 1]);
    end < begin + LEAST_SIDES || begin + MOST_SIDES < end
}

// SIZE, at some facet.
fn some_wrong_sides(begins: &[u16]) -> bool
    requires { 1 ≤ length begins.now }
    ensures { result ≡ any_below (wrong_sides begins.now) (facets begins.now) }
{
    (0..begins.len() - 1).any(|f| wrong_sides(begins, f))
}

// Number 1, SIZE: whether it applies.
#[tactic(auto, using(crate::specs::Size::counted), unfolding(crate::specs::Size::is_size))]
pub fn size(points: &[i32], corners: &[u16], begins: &[u16]) -> bool
    ensures { result ≡ is_size points.now corners.now begins.now }
{
    wrong_lengths(points.len(), corners.len(), begins.len())
        || wrong_ends(corners, begins)
        || some_wrong_sides(begins)
}

// The part of the run that has the corners of facet f.
pub fn part<'a>(corners: &'a [u16], begins: &[u16], f: usize) -> &'a [u16]
    requires { Laid corners.now begins.now × (f < facets begins.now) }
    ensures { Lies 2 corners.entry (begin begins.now f) (facet_of corners.now begins.now f) result }
{
    let begin = wide(begins[f]);
    let end = wide(begins[f + 1]);
    &corners[begin..end]
}

// The first place of a rule that is tested at each of n vertices or facets.
pub fn lowest<F: Fn(usize) -> bool>(n: usize, applies: F) -> Option<Place>
    requires { (v : ℕ) → v < n → F.pre applies v }
    ensures { (test : ℕ → Bool) → Tests (F.post applies) n test → result ≡ lowest n test }
{
    for v in 0..n {
        if applies(v) {
            return Some((v, 0));
        }
    }
    None
}

// The first place of a rule that is looked for in each of n facets: `find` gives the first within one.
pub fn first_place<F: Fn(usize) -> Option<usize>>(n: usize, find: F) -> Option<Place>
    requires { (f : ℕ) → f < n → F.pre find f }
    ensures { (sizes : ℕ → ℕ) → (test : ℕ → ℕ → Bool) → Finds (F.post find) n sizes test → result ≡ first_place n sizes test }
{
    for f in 0..n {
        if let Some(p) = find(f) {
            return Some((f, p));
        }
    }
    None
}

// The facet look-up: the part of the lent run that has the corners of facet f, or the empty part at its beginning.
pub fn facet<'a>(points: &[i32], corners: &'a [u16], begins: &[u16], f: usize) -> &'a [u16]
    ensures { Lies 2 corners.entry
        (look_up_at points.now corners.now begins.now f)
        (look_up points.now corners.now begins.now f) result }
{
    if size(points, corners, begins) {
        return &corners[0..0];
    }
    if f < begins.len() - 1 {
        return part(corners, begins, f);
    }
    &corners[0..0]
}
