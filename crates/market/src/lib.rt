// The records of an auction day, the refusals, and the bounds of entry.
#![tactic(auto)]

pub mod bounds;
pub mod entry;
pub mod records;
pub mod refusal;
