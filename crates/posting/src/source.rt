// Where postings are read from.
ghost use Rattle.std.specs.Prelude.{◌≡◌, ℕ, length, Option, slice_get};
ghost use Rattle.posting.specs.declared.posting.Posting.{Posting};

use super::Posting;

// Read by place and not by an iterator: what was posted is taken back through the same places, in the other order.
/// Postings that are read by place, in order; at a place there may be nothing to post.
pub trait Source {
    // How many places there are.
    ghost many: { Self → ℕ };

    // What stands at a place, from 0.
    ghost slot: { Self → ℕ → Option Posting };

    /// How many places there are.
    fn places(&self) -> usize
        ensures { result ≡ many self.now };

    /// What stands at a place, from 0.
    fn at(&self, place: usize) -> Option<Posting>
        ensures { result ≡ slot self.now place };
}

// A type of its own and not an impl for slices: callers have it.
/// A slice of postings as a source.
#[derive(Clone, Copy)]
pub struct Listed<'a> {
    pub postings: &'a [Posting],
}

impl<'a> Source for Listed<'a> {
    ghost many = { λ s. length s.postings.now };

    ghost slot = { λ s k. slice_get s.postings.now k };

    fn places(&self) -> usize {
        self.postings.len()
    }

    fn at(&self, place: usize) -> Option<Posting> {
        self.postings.get(place).copied()
    }
}
