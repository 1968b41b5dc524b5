// Decimal numbers, read from words.
#![tactic(auto)]

ghost use Rattle.std.specs.Prelude.{◌≡◌, true, false, ◌+◌, ◌≤◌, ◌<◌, min};
ghost use Rattle.words.specs.Runs.{each};
ghost use Rattle.words.specs.Words.{word_of, is_blank};
ghost use Rattle.numbers.specs.Number.{is_digit, are_digits, decimal};
ghost use Rattle.numbers.specs.Reading.{most, kept, natural_of, read_of};

// Whether bytes are one or more digits.
fn are_digits(s: &[u8]) -> bool
    ensures { result ≡ are_digits s.now }
{
    !s.is_empty() && s.iter().all(u8::is_ascii_digit)
}

// Beyond this a value is not told apart.
const MOST: u64 = 1_000_000_000;

// What is kept of n with one digit more.
fn more(n: u64, b: u8) -> u64
    requires { (n ≤ most) × (48 ≤ b) }
    ensures { result ≡ kept n b }
{
    (n * 10 + u64::from(b - b'0')).min(MOST)
}

// The value of digits, or MOST where it is greater.
fn value_of(s: &[u8]) -> u64
    requires { each is_digit s.now ≡ true }
    ensures { result ≡ min (decimal 0 s.now) most }
{
    let mut n = 0;
    for b in s {
        n = more(n, *b);
    }
    n
}

// Digits read as a number.
fn natural(s: &[u8]) -> Option<i64>
    ensures { result ≡ natural_of s.now }
{
    are_digits(s).then(|| value_of(s) as i64)
}

// A word read as a number: a minus sign or none, and digits.
fn number(word: &[u8]) -> Option<i64>
    ensures { result ≡ read_of word.now }
{
    match word {
        [b'-', digits @ ..] => natural(digits).map(|n| -n),
        _ => natural(word),
    }
}

// Word number k of the programs' input, read as a number; none where it is missing or malformed.
pub fn number_at(text: &[u8], k: usize) -> Option<i64>
    ensures { result ≡ read_of (word_of is_blank text.now k) }
{
    number(words::word(text, &words::BLANKS, k))
}
