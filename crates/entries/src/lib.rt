// Settling and voiding one interval: its amounts, its postings and its numbers in the sheet, over slices and any ledger.
#![tactic(auto)]

mod amounts;
mod book;
mod checks;
mod delivery;
mod laws;
mod postings;
mod refused;
mod settling;
mod sheet;
mod task;
mod terms;
mod undo;
mod voiding;
mod work;

pub use laws::laws_stand;
pub use refused::SettleRefused;
pub use settling::settle_interval;
pub use terms::Terms;
pub use voiding::void_interval;
pub use work::Work;
