// The numbers of the stored cases' text: words of digits, some with a minus sign before them.
#![tactic(auto)]

ghost use Rattle.std.specs.Prelude.{◌≡◌, ◌≤◌, ℤ, unsigned_abs, FitsSigned};
ghost use Rattle.std.specs.Int.{w32, FitsUnsignedBits};

// A number with one digit more, unless it has more than 32 bits or the byte is below the digits.
fn more(n: u32, b: u8) -> Option<u32> {
    let digit = b.checked_sub(b'0')?;
    n.checked_mul(10)?.checked_add(u32::from(digit))
}

// The value of digits, counted anew past each byte that makes none.
fn digits(word: &[u8]) -> u32 {
    word.iter().fold(0, |n, b| more(n, *b).unwrap_or(0))
}

// The value of a word.
pub fn value(word: &[u8]) -> i64
    ensures { unsigned_abs result ≤ 4294967295 }
{
    match word {
        [b'-', rest @ ..] => -i64::from(digits(rest)),
        _ => i64::from(digits(word)),
    }
}

// A number as the stored cases have it.
pub trait Number {
    // Which values the type holds, and as which number.
    ghost holds: { ℤ → Type 0 };

    ghost held: { ℤ → Self };

    // The number of a value; for one that the type doesn't hold, what stands for it.
    fn of(value: i64) -> Self
        ensures { holds value → result ≡ held value };
}

impl Number for u8 {
    ghost holds = { FitsUnsignedBits 8 };

    ghost held = { unsigned_abs };

    fn of(value: i64) -> u8 {
        u8::try_from(value).unwrap_or(0)
    }
}

impl Number for u16 {
    ghost holds = { FitsUnsignedBits 16 };

    ghost held = { unsigned_abs };

    fn of(value: i64) -> u16 {
        u16::try_from(value).unwrap_or(0)
    }
}

impl Number for u32 {
    ghost holds = { FitsUnsignedBits 32 };

    ghost held = { unsigned_abs };

    fn of(value: i64) -> u32 {
        u32::try_from(value).unwrap_or(0)
    }
}

// The least number stands for any value below it, 0 for any above.
impl Number for i32 {
    ghost holds = { FitsSigned w32 };

    ghost held = { λ z. z };

    fn of(value: i64) -> i32 {
        i32::try_from(value).unwrap_or(if value < 0 { i32::MIN } else { 0 })
    }
}
