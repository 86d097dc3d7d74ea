// A remainder in hand: it has to be booked or noted.
ghost use Rattle.std.specs.Prelude.{◌≡◌, pos};

use super::refusal::Refusal;

/// What settling an interval has left over, in steps. Whoever holds one has to book it or note it: one that lapses is refused by
/// the check.
#[must_use]
pub struct Remainder {
    pub(crate) interval: i32,
    pub(crate) steps: i32,
}

// Intervals are numbered from 1, so none that a call hands over is of interval 0: what may be let go is nobody's. So one can be let go
// only where the check finds that there is none.
impl Drop for Remainder {
    fn drop(self)
        requires { self.interval ≡ pos 0 }
    {
        self.lay_down();
    }
}

impl Remainder {
    // Takes a remainder apart: it is booked or noted, or the day shows it out.
    pub(crate) fn lay_down(self) -> i32
        ensures { result ≡ self.steps }
    {
        let Remainder { interval: _, steps } = self;
        steps
    }

    /// The interval that it is of.
    pub fn interval(&self) -> i32
        ensures { result ≡ self.now.interval }
    {
        self.interval
    }

    /// How many steps it is: settled sells less settled buys less the rounded net position.
    pub fn steps(&self) -> i32
        ensures { result ≡ self.now.steps }
    {
        self.steps
    }
}

/// A remainder that was not taken, with the reason.
#[must_use]
pub struct Returned {
    pub refusal: Refusal,
    pub remainder: Remainder,
}
