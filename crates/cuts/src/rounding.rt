ghost use Rattle.std.specs.Prelude.{◌≡◌};
ghost use Rattle.cuts.specs.Rounding.{nearest, Nearest};

use market::bounds::THOUSANDTHS_PER_STEP;

// A step, as the fills count.
const STEP: u64 = THOUSANDTHS_PER_STEP as u64;

/// A fill in steps: the nearest, a half upward.
pub fn nearest(fill: u32) -> u32
    ensures is { result ≡ nearest fill }
    ensures near { Nearest fill result }
{
    ((u64::from(fill) + STEP / 2) / STEP) as u32
}
