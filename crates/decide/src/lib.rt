//! Whether a history has any witness.
#![tactic(auto)]

mod certifying;
mod deciding;
mod decision;
mod leaving_out;
mod marking;
mod saving;
mod spans;
mod verifiers;

pub use deciding::{WalksWatch, decide, open_calls};
pub use decision::{Decision, Refusal, Undecided};
pub use decision_core::Watch;
pub use decision_walk;
