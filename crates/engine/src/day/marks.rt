// What a day shows of its remainders, and the marks of its intervals.
ghost use Rattle.std.specs.Prelude.{◌≡◌, true};
ghost use Rattle.market.specs.Bounds.{in_day};
ghost use Rattle.entries.specs.Amounts.{conditions};
ghost use Rattle.engine.specs.Days.{Recorded, place_of, record_of, with_state, conditions_in};
ghost use Rattle.engine.specs.Marks.{Marked, shows_out};
ghost use Rattle.engine.specs.Sound.{terms_lawful};

use super::Day;
use crate::remainder::Remainder;
use entries::Terms;
use market::records::{Interval, Mark};

const MINUTES_PER_QUARTER: u32 = 15;

impl Day {
    // A `let else`, since of an `is_some_and` over the record the proof stays open. Booking and noting ask this and give the remainder back
    // in lines of their own: a method that took it and handed it on was tried, and needs a proof in each of them that it is the same one.
    pub(crate) fn shows_out(&self, remainder: &Remainder) -> bool
        ensures { result ≡ shows_out self.now remainder.now.interval remainder.now.steps }
    {
        let Some(record) = self.interval(remainder.interval) else {
            return false;
        };
        record.mark == Mark::Out && record.remainder == remainder.steps
    }

    // That the day has the interval is asked here and below: it speaks of day and interval together, and neither alone can hold it.
    pub(crate) fn put_state(&mut self, interval: i32, mark: Mark, remainder: i32)
        requires { in_day self.old.count interval ≡ true }
        ensures { Recorded self.old (place_of interval) (with_state (record_of self.old interval) mark remainder) self.new }
    {
        let record = self.record(interval);
        self.put(
            interval,
            Interval {
                mark,
                remainder,
                ..record
            },
        );
    }

    // The interval as for `put_state`.
    pub(crate) fn put_mark(&mut self, interval: i32, mark: Mark)
        requires { in_day self.old.count interval ≡ true }
        ensures { Marked self.old interval mark self.new }
    {
        let record = self.record(interval);
        self.put(interval, Interval { mark, ..record });
    }

    // What a record of the day is settled by. A record is plain, so that its terms are lawful is asked here as in `open_part`.
    pub(crate) fn terms_of(&self, record: Interval) -> Terms
        requires { terms_lawful «record» ≡ true }
        ensures { conditions result ≡ conditions_in self.now.minutes «record» }
    {
        Terms {
            price: record.price,
            rounded: record.rounded,
            quarters: self.minutes as u32 / MINUTES_PER_QUARTER,
        }
    }
}
