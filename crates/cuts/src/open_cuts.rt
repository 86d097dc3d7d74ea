// The open cuts of candidates, by what they hold.
ghost use Rattle.std.specs.Prelude.{◌≡◌, ℕ, ◌≤◌, length};
ghost use Rattle.cuts.specs.Stages.{smallest, ahead, open_cuts};

fn smallest(held: &[u32]) -> u32
    ensures { result ≡ smallest held.now }
{
    held.iter().copied().min().unwrap_or(0)
}

// How many stand before the first that holds `steps`.
fn ahead(steps: u32, held: &[u32]) -> usize
    ensures is { result ≡ ahead steps held.now }
    ensures within { result ≤ length held.now }
{
    held.iter().take_while(|holds| **holds != steps).count()
}

/// How many cuts a stage can make whose candidates hold that many steps, in rank order.
pub fn open_cuts(held: &[u32]) -> u128
    ensures { result ≡ open_cuts held.now }
{
    let low = smallest(held);
    let spare = low.saturating_sub(1);
    held.len() as u128 * u128::from(spare) + ahead(low, held) as u128
}
