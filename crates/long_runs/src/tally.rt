// What is counted over all runs on one kind of ledger.
use engine::call::{Call, Outcome};
use std::alloc::{AllocError, Global};
use std::collections::BTreeMap;

/// How many calls of each kind were accepted.
#[derive(Clone, Copy, Debug)]
pub(crate) struct Accepted {
    pub(crate) settled: u32,
    pub(crate) booked: u32,
    pub(crate) noted: u32,
    pub(crate) taken_up: u32,
    pub(crate) voided: u32,
}

/// The counts of the runs on one kind of ledger.
#[derive(Debug, Drop)]
pub(crate) struct Tally {
    pub(crate) days: u32,
    pub(crate) calls: u32,
    pub(crate) accepted: Accepted,
    /// Remainders above 0 that were handed over by settling, and those below 0.
    pub(crate) over: u32,
    pub(crate) under: u32,
    /// How often each refusal came, by its number.
    pub(crate) refusals: BTreeMap<u32, u32>,
}

fn raise(count: &mut u32) {
    *count = count.saturating_add(1);
}

impl Tally {
    pub(crate) fn new(alloc: Global) -> Tally {
        Tally {
            days: 0,
            calls: 0,
            accepted: Accepted {
                settled: 0,
                booked: 0,
                noted: 0,
                taken_up: 0,
                voided: 0,
            },
            over: 0,
            under: 0,
            refusals: BTreeMap::new(alloc),
        }
    }

    pub(crate) fn add_day(&mut self) {
        raise(&mut self.days);
    }

    pub(crate) fn add(&mut self, call: Call, outcome: Outcome) -> Result<(), AllocError> {
        raise(&mut self.calls);
        match outcome {
            Outcome::Accepted { steps } => self.add_accepted(call, steps),
            Outcome::Refused(refusal) => {
                let count = self.refusals.entry(refusal.number())?.or_insert(0);
                raise(count);
            }
        }
        Ok(())
    }

    fn add_accepted(&mut self, call: Call, steps: i32) {
        match call {
            Call::Settle { .. } => {
                raise(&mut self.accepted.settled);
                if steps > 0 {
                    raise(&mut self.over);
                }
                if steps < 0 {
                    raise(&mut self.under);
                }
            }
            Call::Book { .. } => raise(&mut self.accepted.booked),
            Call::Note { .. } => raise(&mut self.accepted.noted),
            Call::TakeUp { .. } => raise(&mut self.accepted.taken_up),
            Call::Void { .. } => raise(&mut self.accepted.voided),
        }
    }
}
