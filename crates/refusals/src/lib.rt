// The sheet's refusals by name, and the number of each.
#![tactic(auto)]

ghost use Rattle.std.specs.Prelude.{◌≡◌};
ghost use Rattle.refusals.specs.Numbers.{number_of};

// In the order of their numbers, 1 to 26.
#[derive(Clone, Copy, PartialEq, Eq)]
pub enum Refusal {
    Size = 1,
    Range,
    Index,
    Repeat,
    Unused,
    Pair,
    Ring,
    Apart,
    Bent,
    Turn,
    Reflex,
    Outside,
    Start,
    Direction,
    Trail,
    Room,
    Kind,
    Order,
    Limit,
    Cut,
    Count,
    Tail,
    Buffer,
    Few,
    Left,
    Wound,
}

impl Refusal {
    pub fn number(self) -> u16
        ensures { result ≡ number_of self }
    {
        self as u16
    }
}
