// The settling calls by their numbers, and what comes of them.
use super::refusal::Refusal;
use std::fmt;

/// A settling call, by its numbers.
#[derive(Clone, Copy, PartialEq, Eq, Debug)]
pub enum Call {
    Settle { interval: i32 },
    Book { interval: i32, steps: i32 },
    Note { interval: i32, steps: i32 },
    TakeUp { interval: i32 },
    Void { interval: i32 },
}

/// What came of a call.
#[derive(Clone, Copy, PartialEq, Eq, Debug)]
pub enum Outcome {
    /// The steps that were handed over, booked or noted; 0 for a void.
    Accepted { steps: i32 },
    Refused(Refusal),
}

impl fmt::Display for Call {
    fn fmt<W: fmt::Write>(&self, f: &mut fmt::Formatter<W>) -> fmt::Result {
        match *self {
            Call::Settle { interval } => write!(f, "settle interval {interval}"),
            Call::Book { interval, steps } => {
                write!(f, "book {steps} steps of interval {interval}")
            }
            Call::Note { interval, steps } => {
                write!(f, "note {steps} steps of interval {interval}")
            }
            Call::TakeUp { interval } => write!(f, "take up interval {interval}"),
            Call::Void { interval } => write!(f, "void interval {interval}"),
        }
    }
}

impl fmt::Display for Outcome {
    fn fmt<W: fmt::Write>(&self, f: &mut fmt::Formatter<W>) -> fmt::Result {
        match *self {
            Outcome::Accepted { steps } => write!(f, "accepted, with {steps} steps"),
            Outcome::Refused(refusal) => write!(f, "refused with {refusal}"),
        }
    }
}
