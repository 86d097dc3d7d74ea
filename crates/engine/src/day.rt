// The day and its hundred interval records.
ghost use Rattle.engine.specs.Sound.{Sound};

use market::records::Interval;

pub mod calls;
mod marks;

/// A day of 1 to 100 intervals. Its fields are private: it changes through the calls alone.
#[derive(Drop)]
pub struct Day {
    minutes: i32,
    // A library crate has no heap: the table is of fixed length, with the count beside it.
    count: usize,
    intervals: [Interval; 100],
    ghost sound: { Sound minutes count intervals },
}
