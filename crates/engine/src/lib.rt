// The auction day and its book: the calls by which a day is made, judged, settled and voided.
#![tactic(auto)]

pub mod book;
pub mod booking;
pub mod call;
pub mod day;
mod lifting;
pub mod noting;
pub mod refusal;
pub mod remainder;
pub mod running;
pub mod settling;
pub mod voiding;
