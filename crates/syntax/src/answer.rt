// What the calls answer. The definition Answer in specs/ gives the number and the value of each answer, docs/CALLS.md their table.
ghost use Rattle.std.specs.Prelude.{◌≡◌};
ghost use Rattle.syntax.specs.Answer.{refusal_number, refusal_value, number_of, value_of};

use std::fmt;

// Acceptance, with the length of the text where one was written and otherwise 0, or a refusal.
pub type Answer = Result<u64, Refusal>;

// The cause of a refusal, with the value that is returned for it.
#[derive(Clone, Copy, Debug, PartialEq, Eq)]
pub enum Refusal {
    TooLong(u64),
    NotUtf8(u64),
    TreeTooShort(u64),
    ErrorsTooShort(u64),
    TooDeep(u64),
    IllFormed(u64),
    OutputTooShort(u64),
}

impl Refusal {
    // Its number, in the order of the causes.
    pub fn number(self) -> u32
        ensures { result ≡ refusal_number self }
    {
        match self {
            Refusal::TooLong(_) => 1,
            Refusal::NotUtf8(_) => 2,
            Refusal::TreeTooShort(_) => 3,
            Refusal::ErrorsTooShort(_) => 4,
            Refusal::TooDeep(_) => 5,
            Refusal::IllFormed(_) => 6,
            Refusal::OutputTooShort(_) => 7,
        }
    }

    // The value that comes with it.
    pub fn value(self) -> u64
        ensures { result ≡ refusal_value self }
    {
        match self {
            Refusal::TooLong(value)
            | Refusal::NotUtf8(value)
            | Refusal::TreeTooShort(value)
            | Refusal::ErrorsTooShort(value)
            | Refusal::TooDeep(value)
            | Refusal::IllFormed(value)
            | Refusal::OutputTooShort(value) => value,
        }
    }
}

impl fmt::Display for Refusal {
    fn fmt<W: fmt::Write>(&self, f: &mut fmt::Formatter<W>) -> fmt::Result {
        write!(f, "refusal {}, {}", self.number(), self.value())
    }
}

// The number of an answer, 0 where it is no refusal.
pub fn number<T: Copy>(answer: Result<T, Refusal>) -> u32
    ensures { result ≡ number_of answer }
{
    match answer {
        Ok(_) => 0,
        Err(refusal) => refusal.number(),
    }
}

// The value that comes with it.
pub fn value(answer: Answer) -> u64
    ensures { result ≡ value_of answer }
{
    match answer {
        Ok(value) => value,
        Err(refusal) => refusal.value(),
    }
}
