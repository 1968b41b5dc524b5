// The judge's record, which walk, writer and programs share: one maker for each kind of answer.
#![tactic(auto)]

ghost use Rattle.std.specs.Prelude.{◌≡◌, ◌≤◌, length, Ok};
ghost use Rattle.refusals.specs.Numbers.{number_of};
ghost use Rattle.answers.specs.Answer.{accepted, fault, refused, passed, of_length, at_offset, answer_of};
ghost use Rattle.answers.specs.Order.{or_else};

use refusals::Refusal;
use tables::Place;

// The first rule that tables break, by its number, and its first place.
#[derive(Clone, Copy)]
pub struct Fault {
    pub number: u16,
    pub first: usize,
    pub second: usize,
}

// Whether tables pass a rule: not where a place was found, the first, at which it applies.
pub fn pass(rule: Refusal, found: Option<Place>) -> Result<(), Fault>
    ensures { result ≡ or_else (number_of rule) found (Ok tt) }
{
    match found {
        Some((first, second)) => Err(Fault {
            number: rule.number(),
            first,
            second,
        }),
        None => Ok(()),
    }
}

// A number and three places.
#[derive(Clone, Copy)]
pub struct Answer {
    pub number: u16,
    pub first: usize,
    pub second: usize,
    pub third: usize,
}

impl Answer {
    // Accepted: V, E, F.
    fn accepted(v: usize, e: usize, f: usize) -> Self
        ensures { result ≡ accepted v e f }
    {
        Self {
            number: 0,
            first: v,
            second: e,
            third: f,
        }
    }

    // The record of a rule's number and its first place.
    fn fault(number: u16, first: usize, second: usize) -> Self
        ensures { result ≡ fault number first second }
    {
        Self {
            number,
            first,
            second,
            third: 0,
        }
    }

    // A refusal that has no place.
    pub fn refused(number: u16) -> Self
        ensures { result ≡ refused number }
    {
        Self::fault(number, 0, 0)
    }

    // A refusal of a file, at a byte.
    pub fn at_offset(number: u16, offset: usize) -> Self
        ensures { result ≡ at_offset number offset }
    {
        Self::fault(number, offset, 0)
    }

    // No refusal, where there is nothing to name.
    pub fn passed() -> Self
        ensures { result ≡ passed }
    {
        Self::accepted(0, 0, 0)
    }

    // What was written has this length.
    pub fn of_length(length: usize) -> Self
        ensures { result ≡ of_length length }
    {
        Self::accepted(length, 0, 0)
    }

    // The judge's record of the tables' first fault, or of none, from the tables.
    pub fn of(points: &[i32], corners: &[u16], begins: &[u16], outcome: Result<(), Fault>) -> Self
        requires { outcome ≡ Ok tt → 1 ≤ length begins.now }
        ensures { result ≡ answer_of points.now corners.now begins.now outcome }
    {
        match outcome {
            Err(fault) => Self::fault(fault.number, fault.first, fault.second),
            Ok(()) => Self::accepted(points.len() / 3, corners.len() / 2, begins.len() - 1),
        }
    }
}
