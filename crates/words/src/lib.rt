// Words of a text: runs of bytes parted by a set of others.
#![tactic(auto)]

ghost use Rattle.std.specs.Prelude.{◌≡◌, ℕ, Bool, true, false, ◌<◌, ltb, length};
ghost use Rattle.whole.specs.Lies.{Lies};
ghost use Rattle.words.specs.Runs.{among, other};
ghost use Rattle.words.specs.Words.{words, word_of, is_blank};
ghost use Rattle.words.specs.Scan.{past_of, next_of, nth_of, word_at};

// What parts the words of the programs' input.
pub const BLANKS: [u8; 2] = [b' ', b'\n'];

// The end of the run of bytes, from `at` on, that pass a test.
fn past<F: Fn(u8) -> bool>(text: &[u8], at: usize, test: F) -> usize
    requires { F.IsAlwaysCallable test }
    ensures { (p : ℕ → Bool) → ((b : ℕ) (t : Bool) → F.post test b t → t ≡ p b) → result ≡ past_of p text.now at }
{
    let rest = text.get(at..).unwrap_or_default();
    at + rest.iter().take_while(|b| test(**b)).count()
}

// Where a word stands in a text; an empty part where there is none.
#[derive(Clone, Copy)]
pub struct Span {
    pub start: usize,
    pub end: usize,
}

// The first word from `at` on, where a set has the blanks.
pub fn next(text: &[u8], set: &[u8], at: usize) -> Span
    ensures { result ≡ next_of (among set.now) text.now at }
{
    let start = past(text, at, |b| set.contains(&b));
    let end = past(text, start, |b| !set.contains(&b));
    Span { start, end }
}

// Where word number k stands, counted from 0.
#[tactic(auto, unfolding(crate::specs::Scan::nth_of))]
fn nth(text: &[u8], set: &[u8], k: usize) -> Span
    ensures { result ≡ nth_of (among set.now) text.now k }
{
    let mut at = next(text, set, 0);
    for _ in 0..k {
        at = next(text, set, at.end);
    }
    at
}

// Word number k, counted from 0: the part of the text itself, the empty part at its end where there are not so many words.
#[tactic(auto, using(crate::specs::Scan::nth_within, crate::specs::Scan::nth_word, crate::specs::Scan::nth_at))]
pub fn word<'a>(text: &'a [u8], set: &[u8], k: usize) -> &'a [u8]
    ensures { Lies 1 text.entry
        (word_at (among set.now) text.now k)
        (word_of (among set.now) text.now k) result }
{
    let at = nth(text, set, k);
    &text[at.start..at.end]
}

// Whether the programs' input has a word number k.
#[tactic(auto, using(crate::specs::Words::word_there))]
pub fn has_word(text: &[u8], k: usize) -> bool
    ensures { result ≡ ltb k (length (words is_blank text.now)) }
{
    !word(text, &BLANKS, k).is_empty()
}
