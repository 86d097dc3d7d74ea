// The numbers of an interval's entries in the sheet.
ghost use Rattle.std.specs.Prelude.{◌≡◌, ◌+◌, ◌-◌, ◌<◌, ◌≤◌, length, if◌then◌else◌, slice_index, slice_set};
ghost use Rattle.entries.specs.Sheet.{of_interval, place_of, sheet_with, sheet_without, sheet_number, Laid, Fits};

use super::book::is_of;
use super::delivery::Delivery;

const NO_STEPS: u32 = 0;

// A number's place is counted from its entry and its interval: the rows of the sheet are written at one interval, and not walked.
impl Delivery<'_> {
    // Where a sheet of that size has the number of the entry at a place.
    fn index(self, place: usize, size: usize) -> usize
        requires { Fits (length self.book.orders.now) self.intervals self.interval place size }
        ensures is { result ≡ place_of (length self.entry.book.orders.now) self.entry.intervals self.entry.interval place }
        ensures within { result < size }
    {
        let orders = self.book.orders.len();
        if place < orders {
            place
        } else {
            orders + (place - orders) * self.intervals + (self.interval as usize - 1)
        }
    }

    // Writes the number of the entry at a place, where it is of the interval. That the book has the place is asked as where it is read.
    fn put_entry(self, place: usize, number: u32, sheet: &mut [u32])
        requires { (place < length self.book.orders.now + length self.book.blocks.now) × (Fits (length self.book.orders.now) self.intervals self.interval place (length sheet.old)) }
        ensures { sheet.new ≡ (if of_interval self.entry.book.orders.now self.entry.book.blocks.now self.entry.interval place then slice_set sheet.old (place_of (length self.entry.book.orders.now) self.entry.intervals self.entry.interval place) number else sheet.old) }
    {
        if is_of(self.book, place, self.interval) {
            sheet[self.index(place, sheet.len())] = number;
        }
    }

    /// The number that the sheet has for the entry at a place: 0 where it is not of the interval.
    pub(crate) fn number_at(self, sheet: &[u32], place: usize) -> u32
        requires place { place < length self.book.orders.now + length self.book.blocks.now }
        requires laid { Laid (length self.book.orders.now) (length self.book.blocks.now) self.intervals self.interval (length sheet.now) }
        ensures { result ≡ sheet_number self.entry.book.orders.now self.entry.book.blocks.now self.entry.intervals self.entry.interval sheet.now place }
    {
        if is_of(self.book, place, self.interval) {
            sheet[self.index(place, sheet.len())]
        } else {
            NO_STEPS
        }
    }

    /// Writes the numbers of an interval's entries into the sheet.
    #[tactic(auto, unfolding(crate::specs::Sheet::sheet_with))]
    pub(crate) fn write(self, numbers: &[u32], sheet: &mut [u32])
        requires laid { Laid (length self.book.orders.now) (length self.book.blocks.now) self.intervals self.interval (length sheet.old) }
        requires numbers { length numbers.now ≡ length self.book.orders.now + length self.book.blocks.now }
        ensures { sheet.new ≡ sheet_with self.entry.book.orders.now self.entry.book.blocks.now self.entry.intervals self.entry.interval numbers.now sheet.old }
    {
        for (place, number) in numbers.iter().enumerate() {
            self.put_entry(place, *number, sheet);
        }
    }

    /// Zeroes the numbers of an interval's entries in the sheet.
    #[tactic(auto, unfolding(crate::specs::Sheet::sheet_without))]
    pub(crate) fn clear(self, sheet: &mut [u32])
        requires laid { Laid (length self.book.orders.now) (length self.book.blocks.now) self.intervals self.interval (length sheet.old) }
        requires few { length self.book.orders.now + length self.book.blocks.now ≤ 1088 }
        ensures { sheet.new ≡ sheet_without self.entry.book.orders.now self.entry.book.blocks.now self.entry.intervals self.entry.interval sheet.old }
    {
        for place in 0..self.entries() {
            self.put_entry(place, NO_STEPS, sheet);
        }
    }
}
