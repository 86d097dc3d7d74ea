// Pseudo-random numbers from a fixed seed.
ghost use Rattle.std.specs.Prelude.{◌<◌};

use rand_core::utils::NextWord;
use rand_pcg::Pcg32;

/// A generator that gives the same numbers in each run of the program.
#[derive(Drop)]
pub(crate) struct Dice {
    source: Pcg32,
}

impl Dice {
    /// The numbers of a seed, apart from those of the same seed in another stream.
    pub(crate) fn new(seed: u64, stream: u64) -> Dice {
        Dice {
            source: Pcg32::new(seed, stream),
        }
    }

    /// A number below a bound.
    pub(crate) fn below(&mut self, bound: u32) -> u32
        requires { 0 < bound }
        ensures { result < bound }
    {
        self.source.next_word() % bound
    }

    /// Once in so many times.
    pub(crate) fn one_in(&mut self, times: u32) -> bool
        requires { 0 < times }
    {
        self.below(times) == 0
    }
}
