// The states of the book: open, closed, passed.
ghost use Rattle.std.specs.Prelude.{◌≤◌};

use market::refusal::Refusal;

pub mod calls;
pub mod judging;
mod memory;

/// How many entries a book has.
#[derive(Drop)]
pub struct Counts {
    pub(crate) orders: usize,
    pub(crate) blocks: usize,
    ghost few: { (orders ≤ 1024) × (blocks ≤ 64) },
}

/// A book that takes terms and entries.
#[derive(Drop)]
pub struct Open {
    pub(crate) counts: Counts,
}

/// A book that can be judged, and nothing else.
#[derive(Drop)]
pub struct Closed {
    pub(crate) counts: Counts,
}

/// A book on which a paper has passed. It comes from judging alone.
#[derive(Drop)]
pub struct Passed {
    pub(crate) counts: Counts,
}

/// A paper that passes: the passed book, and the welfare of the paper.
#[derive(Drop)]
pub struct Pass {
    pub book: Passed,
    pub welfare: i64,
}

/// A paper that is refused: the first broken rule with its place, and the closed book back.
#[derive(Drop)]
pub struct Fail {
    pub refusal: Refusal,
    pub book: Closed,
}
