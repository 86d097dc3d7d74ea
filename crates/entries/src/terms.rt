// The terms of an interval.
ghost use Rattle.std.specs.Prelude.{◌≡◌, true};
ghost use Rattle.market.specs.Bounds.{price_ok};
ghost use Rattle.entries.specs.Lawful.{rounded_ok, quarters_ok};

/// The terms by which an interval is settled. They are within bounds, so that an amount of any 32-bit number of steps fits.
#[derive(Clone, Copy)]
pub struct Terms {
    /// Whole cents per MWh.
    pub price: i32,
    /// R, the net position rounded to steps.
    pub rounded: i32,
    /// Quarters of an hour in the interval: 1, 2 or 4.
    pub quarters: u32,
    ghost lawful: { (price_ok price ≡ true) × (rounded_ok rounded ≡ true) × (quarters_ok quarters ≡ true) },
}
