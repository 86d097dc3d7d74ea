#![tactic(auto)]

pub mod candidates;
mod entries;
mod gather;
pub mod laws;
pub mod list;
mod numbers;
pub mod open_cuts;
mod paper;
pub mod rank;
pub mod rounding;
pub mod settled;
pub mod stage;
