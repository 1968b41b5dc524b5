// The stored cases' text: letters, numbers, and lists, each of which is how many numbers, then each.
#![tactic(auto)]

ghost use Rattle.std.specs.Prelude.{◌≡◌, ◌≤◌, ◌-◌, length, IfSome, IfNone, slice_get};
ghost use Rattle.whole.specs.Begin.{Begin};

use case_numbers::Number;

// The stored cases' text, and where it goes on.
#[derive(Drop)]
pub struct Text<'a> {
    pub bytes: &'a [u8],
    pub at: usize,
}

impl Text<'_> {
    // The next word's value, 0 at the text's end. The text goes on past the word.
    fn value(&mut self) -> i64
        ensures { self.new.bytes ≡ self.old.bytes }
    {
        let part = words::next(self.bytes, &words::BLANKS, self.at);
        self.at = part.end;
        self.bytes
            .get(part.start..part.end)
            .map_or(0, case_numbers::value)
    }

    // The next number.
    pub fn number<T: Number>(&mut self) -> T
        ensures { self.new.bytes ≡ self.old.bytes }
    {
        T::of(self.value())
    }

    // The next number as one of at most so much; 0 for any other.
    pub fn natural(&mut self, most: usize) -> usize
        ensures bound { result ≤ most }
        ensures same { self.new.bytes ≡ self.old.bytes }
    {
        match usize::try_from(self.value()) {
            Ok(n) if n <= most => n,
            _ => 0,
        }
    }

    // The next word's first byte, past which the text goes on.
    pub fn letter(&mut self) -> Option<u8>
        ensures byte { IfSome result (λ b. slice_get self.old.bytes.now (self.new.at - 1) ≡ Some b) }
        ensures end { IfNone result (length self.old.bytes.now ≤ self.new.at) }
        ensures same { self.new.bytes ≡ self.old.bytes }
    {
        let start = words::next(self.bytes, &words::BLANKS, self.at).start;
        self.at = start;
        let letter = *self.bytes.get(start)?;
        self.at = start + 1;
        Some(letter)
    }
}

// Stores a list at the beginning of a longer one; how many numbers it has.
pub fn fill<T: Number + Drop>(text: &mut Text, list: &mut [T]) -> usize
    ensures begin { Begin result list.new }
    ensures same { text.new.bytes ≡ text.old.bytes }
{
    let n = text.natural(list.len());
    for x in &mut list[..n] {
        *x = text.number();
    }
    n
}

// A solid's tables.
#[derive(Clone, Copy)]
pub struct Tables<'a> {
    pub points: &'a [i32],
    pub corners: &'a [u16],
    pub begins: &'a [u16],
}
