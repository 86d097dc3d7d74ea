// Why a table of account records is refused.
ghost use Rattle.std.specs.Prelude.{◌≡◌};
ghost use Rattle.ledgers.specs.Refusals.{number_of, place_of};

const OUTSIDE_RUN: u32 = 9;

/// Why a table of account records is refused.
#[derive(Clone, Copy, PartialEq, Eq, Debug)]
pub enum TableRefused {
    /// The first record that is no account of the table, by its place from 1.
    OutsideRun { record: u32 },
}

impl TableRefused {
    /// The refusal's number.
    pub fn number(self) -> u32
        ensures { result ≡ number_of self }
    {
        match self {
            TableRefused::OutsideRun { record: _ } => OUTSIDE_RUN,
        }
    }

    /// Where it is refused: the record's place, from 1.
    pub fn place(self) -> u32
        ensures { result ≡ place_of self }
    {
        match self {
            TableRefused::OutsideRun { record } => record,
        }
    }
}
