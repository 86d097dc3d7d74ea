// Any sequence of the settling calls, and the law that every run keeps.
#![tactic(auto)]

mod calls;
mod law;
pub mod play;

pub use calls::close;
pub use law::law_stands;
