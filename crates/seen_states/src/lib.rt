//! The states that a parallel search has seen: a table of words that threads claim fingerprints in, each told New by one claim
//! and Seen by every later one, as long as there is room.
#![tactic(auto)]

mod claims;
mod digest;
mod handles;
mod laws;
mod rule;
mod seats;
mod steps;
mod view;

pub use digest::fingerprint;
pub use handles::{Claim, Claimer, SeenTable};
pub use laws::{every_run_keeps_the_rule, what_the_answers_mean};
