// A number in decimal, written.
#![tactic(auto)]

ghost use Rattle.std.specs.Prelude.{◌≡◌, ◌+◌, ◌≤◌, ◌<◌, length};
ghost use Rattle.decimal.specs.Shown.{digit, digits, shown};
ghost use Rattle.decimal.specs.Stored.{Stored};

// The byte of a digit.
fn digit(n: u64) -> u8
    requires { n < 10 }
    ensures { result ≡ digit n }
{
    b'0' + n as u8
}

// The digits of n, stored from `at` on; the place after them.
#[tactic(auto, using(crate::specs::Shown::spelling, whole::specs::Stores::sets_append))]
fn put_digits(buf: &mut [u8], at: usize, n: u64) -> usize
    requires { at + length (digits n) ≤ length buf.old }
    ensures { Stored (digits n) buf.old buf.new at result }
{
    let last = if n < 10 {
        at
    } else {
        put_digits(buf, at, n / 10)
    };
    buf[last] = digit(n % 10);
    last + 1
}

// A number in decimal, stored from `at` on; the place after it.
pub fn put_number(buf: &mut [u8], at: usize, z: i64) -> usize
    requires { at + length (shown z) ≤ length buf.old }
    ensures { Stored (shown z) buf.old buf.new at result }
{
    if z < 0 {
        buf[at] = b'-';
        put_digits(buf, at + 1, z.unsigned_abs())
    } else {
        put_digits(buf, at, z.unsigned_abs())
    }
}
