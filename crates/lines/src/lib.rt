// Lines of decimal numbers, written.
#![tactic(auto)]

ghost use Rattle.std.specs.Prelude.{◌≡◌, [], ◌∷◌, ◌+◌, ◌≤◌, length};
ghost use Rattle.decimal.specs.Stored.{Stored};
ghost use Rattle.lines.specs.Line.{after, line_of, room, line_in, number_of};

// What stands after a number that so many others follow.
fn after(others: usize) -> u8
    ensures { result ≡ after others }
{
    if others == 0 { b'\n' } else { b' ' }
}

// A line of numbers, stored from `at` on; the place after it.
#[tactic(auto, using(crate::specs::Line::storing))]
fn put_line(buf: &mut [u8], at: usize, numbers: &[i64]) -> usize
    requires { at + length (line_of numbers.now) ≤ length buf.old }
    ensures { Stored (line_of numbers.now) buf.old buf.new at result }
{
    let mut end = at;
    for (i, z) in numbers.iter().enumerate() {
        end = decimal::put_number(buf, end, *z);
        buf[end] = after(numbers.len() - 1 - i);
        end += 1;
    }
    end
}

// Room for seven numbers of 20 bytes, each with a byte after it.
const ROOM: usize = 147;

// A line: its bytes are the first `len`, and the others are 0.
#[derive(Clone, Copy)]
pub struct Line {
    pub bytes: [u8; ROOM],
    pub len: usize,
}

// A line of numbers that has room.
fn line_of(numbers: &[i64]) -> Line
    requires { length (line_of numbers.now) ≤ room }
    ensures { result ≡ line_in numbers.now }
{
    let mut bytes = [0u8; ROOM];
    let len = put_line(&mut bytes, 0, numbers);
    Line { bytes, len }
}

// A place or a count as a number to print; none is so large that it is not itself.
pub fn number_of(n: usize) -> i64
    ensures { result ≡ number_of n }
{
    i64::try_from(n).unwrap_or(i64::MAX)
}

// "number and three places, in decimal, single spaces, newline"
pub fn line4(a: i64, b: i64, c: i64, d: i64) -> Line
    ensures { (result ≡ line_in (a ∷ b ∷ c ∷ d ∷ [])) × (length (line_of (a ∷ b ∷ c ∷ d ∷ [])) ≤ room) }
{
    line_of(&[a, b, c, d])
}
