// The walk program's input: the start and the direction that its words name.
#![tactic(auto)]

ghost use Rattle.std.specs.Prelude.{◌≡◌};
ghost use Rattle.input.specs.Input.{split, read_at, vertex_of, start_in, limited, part_at, is_crowded, direction_in};

// Of more bytes than this the first are split into words.
pub const LONGEST: usize = 256;

// The part of the walk program's input that is split into words.
#[tactic(auto, using(std::proofs::lemmas::List::take_min))]
fn split(input: &[u8]) -> &[u8]
    ensures { result.now ≡ split input.now }
{
    &input[..LONGEST.min(input.len())]
}

// Word number k of the input, read as a number; none where it is missing or malformed.
fn read_at(input: &[u8], k: usize) -> Option<i64>
    ensures { result ≡ read_at input.now k }
{
    numbers::number_at(split(input), k)
}

// No solid has so many vertices.
const NO_VERTEX: usize = 65535;

// A number as the start, or one that is no vertex where it is below 0.
fn vertex(z: i64) -> usize
    ensures { result ≡ vertex_of z }
{
    usize::try_from(z).unwrap_or(NO_VERTEX)
}

// The start that the input names.
pub fn start_in(input: &[u8]) -> usize
    ensures { result ≡ start_in input.now }
{
    read_at(input, 0).map_or(NO_VERTEX, vertex)
}

// Outside the limits of a part.
const NO_PART: i32 = 40000;

// A number as a part of the direction, or one outside the limits where it is.
fn limited(z: i64) -> i32
    ensures { result ≡ limited z }
{
    match z {
        -32767..=32767 => z as i32,
        _ => NO_PART,
    }
}

// The part of the direction that word number k of the input names.
fn part_at(input: &[u8], k: usize) -> i32
    ensures { result ≡ part_at input.now k }
{
    read_at(input, k).map_or(NO_PART, limited)
}

// Whether the input has a fifth word or too many bytes.
fn is_crowded(input: &[u8]) -> bool
    ensures { result ≡ is_crowded input.now }
{
    LONGEST < input.len() || words::has_word(split(input), 4)
}

// The direction that the input names.
#[tactic(auto, unfolding(crate::specs::Input::direction_in))]
pub fn direction_in(input: &[u8]) -> direction::Direction
    ensures { result ≡ direction_in input.now }
{
    if is_crowded(input) {
        direction::Direction::new(NO_PART, NO_PART, NO_PART)
    } else {
        direction::Direction::new(part_at(input, 1), part_at(input, 2), part_at(input, 3))
    }
}
