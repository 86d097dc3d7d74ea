// Reading a day, and changing one of its records.
ghost use Rattle.std.specs.Prelude.{◌≡◌, ℕ, ◌<◌, ◌≤◌, true};
ghost use Rattle.market.specs.Bounds.{minutes_ok, in_day};
ghost use Rattle.engine.specs.Days.{Fresh, Recorded, place_of, record_of, records, shown};
ghost use Rattle.engine.specs.Sound.{terms_lawful};

use super::Day;
use market::bounds::is_in_day;
use market::records::{Interval, Mark};

const FRESH: Interval = Interval {
    price: 0,
    net: 0,
    rounded: 0,
    mark: Mark::Unsettled,
    remainder: 0,
};

impl Day {
    pub(crate) fn fresh(minutes: i32, count: usize) -> Day
        requires { (minutes_ok minutes ≡ true) × ((1 ≤ count) × (count ≤ 100)) }
        ensures { Fresh minutes count result }
    {
        Day {
            minutes,
            count,
            intervals: [FRESH; 100],
        }
    }

    /// The minutes of an interval: 15, 30 or 60.
    pub fn minutes(&self) -> i32
        ensures { result ≡ self.now.minutes }
    {
        self.minutes
    }

    /// The number of intervals, 1 to 100.
    pub fn count(&self) -> usize
        ensures { result ≡ self.now.count }
    {
        self.count
    }

    /// The record of an interval, numbered from 1; nothing for a number that the day does not have.
    pub fn interval(&self, number: i32) -> Option<Interval>
        ensures { result ≡ shown self.now number }
    {
        is_in_day(self.count, i64::from(number)).then(|| self.record(number))
    }

    /// The records of the day's intervals, in their order.
    pub fn intervals(&self) -> &[Interval]
        ensures { result.now ≡ records self.now }
    {
        &self.intervals[0..self.count]
    }

    // The place in the table of an interval of the day. That the day has the interval stays a clause here and of the methods below:
    // it speaks of the two together, and a type that kept it would have to hold the day.
    fn place(&self, interval: i32) -> usize
        requires { in_day self.now.count interval ≡ true }
        ensures is { result ≡ place_of interval }
        ensures small { result < 100 }
    {
        interval as usize - 1
    }

    pub(crate) fn record(&self, interval: i32) -> Interval
        requires { in_day self.now.count interval ≡ true }
        ensures is { result ≡ record_of self.now interval }
        ensures lawful { terms_lawful result ≡ true }
    {
        self.intervals[self.place(interval)]
    }

    // A record is plain, so that its terms are lawful is asked here as in `open_part`.
    pub(crate) fn put(&mut self, interval: i32, record: Interval)
        requires { (in_day self.old.count interval ≡ true) × (terms_lawful «record» ≡ true) }
        ensures { Recorded self.old (place_of interval) «record» self.new }
    {
        let place = self.place(interval);
        self.intervals[place] = record;
    }
}
