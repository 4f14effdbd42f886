// The refusals of a call, and the number of each: 0 means done.
//
// Contracts cite specs/, document 01's table of refusal numbers. A call that can be refused answers a Result.

#![tactic(auto)]

ghost use Rattle.std.specs.Prelude.{◌≡◌};
ghost use Rattle.refusals.specs.Numbers.{number, number_of};

// Why a call is refused.
#[derive(Clone, Copy, Debug, PartialEq, Eq)]
pub enum Refusal {
    ImageLength,
    CounterCount,
    Layout,
    Job,
    CounterNumber,
    InputLength,
    OutputLength,
    ReplyLength,
    MessageLength,
}

impl From<Refusal> for u32 {
    ghost from_gives = { λ refusal result. result ≡ number refusal };

    fn from(refusal: Refusal) -> u32 {
        match refusal {
            Refusal::ImageLength => 1,
            Refusal::CounterCount => 2,
            Refusal::Layout => 3,
            Refusal::Job => 4,
            Refusal::CounterNumber => 5,
            Refusal::InputLength => 6,
            Refusal::OutputLength => 7,
            Refusal::ReplyLength => 8,
            Refusal::MessageLength => 11,
        }
    }
}

// The number of an outcome.
//
// kept: no From, since neither a Result nor a number is this crate's.
pub fn number_of<T: Copy>(outcome: Result<T, Refusal>) -> u32
    ensures { result ≡ number_of outcome }
{
    match outcome {
        Ok(_) => 0,
        Err(refusal) => u32::from(refusal),
    }
}
