//! What the clients of a server were told, and whether that is what was recorded.
#![tactic(auto)]

mod fault;
mod lanes;
mod laws;
mod least;
mod matching;
mod messages;
mod passes;

pub use fault::CloseFault;
pub use laws::an_exchange_was_recorded;
pub use matching::match_passes;
pub use passes::{Exchange, Pass};
