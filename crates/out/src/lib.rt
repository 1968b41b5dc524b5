// The numbers that the functions for Rust and C leave in `out`.
#![tactic(auto)]

ghost use Rattle.std.specs.Prelude.{◌≡◌};
ghost use Rattle.out.specs.Noted.{noted, three};

// Puts numbers at the beginning of `out` where it is long enough, else leaves it.
#[tactic(auto, unfolding(crate::specs::Noted::noted, whole::specs::Over::over))]
pub fn note(out: &mut [i64], numbers: &[i64])
    ensures { out.new ≡ noted numbers.now out.old }
{
    if numbers.len() <= out.len() {
        out[..numbers.len()].copy_from_slice(numbers);
    }
}

// The same of three places.
pub fn note_places(out: &mut [i64], first: usize, second: usize, third: usize)
    ensures { out.new ≡ noted (three first second third) out.old }
{
    let numbers = [first, second, third].map(lines::number_of);
    note(out, &numbers);
}
