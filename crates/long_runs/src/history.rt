// What the calls and their outcomes alone say of each interval.
use crate::plan::Terms;
use engine::call::{Call, Outcome};
use std::alloc::{AllocError, Global};

/// What the history says of an interval.
#[derive(Clone, Copy, Debug)]
pub(crate) struct Standing {
    pub(crate) terms: Terms,
    /// From an accepted settle to the next accepted void.
    pub(crate) is_settled: bool,
    /// From the settle that hands it over to the next accepted book or void.
    pub(crate) unbooked: Option<i32>,
}

/// What the history says of each interval of a day.
#[derive(Debug, Drop)]
pub(crate) struct History {
    pub(crate) standings: Vec<Standing>,
}

impl History {
    /// Before the first call.
    pub(crate) fn new(alloc: Global, terms: &[Terms]) -> Result<History, AllocError> {
        let mut standings = Vec::new(alloc);
        for terms in terms {
            standings.push(Standing {
                terms: *terms,
                is_settled: false,
                unbooked: None,
            })?;
        }
        Ok(History { standings })
    }

    /// The unbooked remainder of an interval.
    pub(crate) fn unbooked(&self, interval: i32) -> Option<i32> {
        let standing = self
            .standings
            .iter()
            .find(|standing| standing.terms.interval == interval)?;
        standing.unbooked
    }

    /// Whether an interval is settled.
    pub(crate) fn is_settled(&self, interval: i32) -> bool {
        self.standings.iter().any(|standing| standing.terms.interval == interval
            && standing.is_settled)
    }

    /// One more call, with what came of it.
    pub(crate) fn record(&mut self, call: Call, outcome: Outcome) {
        let Outcome::Accepted { steps } = outcome else {
            return;
        };
        match call {
            Call::Settle { interval } => self.put(interval, true, Some(steps)),
            Call::Book { interval, .. } => self.put(interval, true, None),
            Call::Void { interval } => self.put(interval, false, None),
            Call::Note { .. } | Call::TakeUp { .. } => {}
        }
    }

    fn put(&mut self, interval: i32, is_settled: bool, unbooked: Option<i32>) {
        for standing in self.standings.iter_mut() {
            if standing.terms.interval == interval {
                standing.is_settled = is_settled;
                standing.unbooked = unbooked;
            }
        }
    }
}
