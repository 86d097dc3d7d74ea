// Three ledgers: a table of the caller's records, the operator's two accounts, and any two ledgers joined.
#![tactic(auto)]

mod joined;
mod laws;
mod operator;
mod refusal;
mod table;

pub use joined::Joined;
pub use laws::laws_stand;
pub use operator::Operator;
pub use refusal::TableRefused;
pub use table::Table;
