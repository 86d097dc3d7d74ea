// Judging a paper on a closed book.
ghost use Rattle.std.specs.Prelude.{◌≡◌};
ghost use Rattle.engine.specs.Judging.{judge_answer, Handed, PaperJudged, PaperBest, verdict_in};

use super::{Closed, Fail, Pass, Passed};
use crate::day::Day;
use market::records::{Book, Fills};
use market::refusal::Refusal;
use verdict::verdict;

impl Closed {
    fn examine(&self, day: &Day, memory: Book<'_>, fills: Fills<'_>) -> Result<i64, Refusal>
        ensures exact { result ≡ judge_answer self.now day.now memory.entry.orders.now fills.entry.orders.now memory.entry.blocks.now fills.entry.blocks.now }
        ensures judged { PaperJudged self.now day.now memory.entry.orders.now fills.entry.orders.now memory.entry.blocks.now fills.entry.blocks.now result }
        ensures best { PaperBest self.now day.now memory.entry.orders.now fills.entry.orders.now memory.entry.blocks.now fills.entry.blocks.now result }
    {
        let book = self.counts.held(memory).ok_or(Refusal::Short)?;
        if !fills.fit(book) {
            return Err(Refusal::Short);
        }
        verdict(day.intervals(), book, fills)
    }

    /// Judges a paper: the passed book and the welfare, or the first rule that is broken, with the closed book back.
    ///
    /// 11 for a memory shorter than its count or another number of fills than of entries, then 12 to 18 as the verdict over slices.
    pub fn judge(self, day: &Day, memory: Book<'_>, fills: Fills<'_>) -> Result<Pass, Fail>
        ensures exact { verdict_in result ≡ judge_answer self day.now memory.entry.orders.now fills.entry.orders.now memory.entry.blocks.now fills.entry.blocks.now }
        ensures hands { Handed self result }
        ensures judged { PaperJudged self day.now memory.entry.orders.now fills.entry.orders.now memory.entry.blocks.now fills.entry.blocks.now (verdict_in result) }
        ensures best { PaperBest self day.now memory.entry.orders.now fills.entry.orders.now memory.entry.blocks.now fills.entry.blocks.now (verdict_in result) }
    {
        match self.examine(day, memory, fills) {
            Ok(welfare) => Ok(Pass {
                book: Passed {
                    counts: self.counts,
                },
                welfare,
            }),
            Err(refusal) => Err(Fail {
                refusal,
                book: self,
            }),
        }
    }
}
