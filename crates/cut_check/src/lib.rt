//! Whether the cuts of a plan keep what a server promised to keep over a crash, and whether the write verifiers
//! that it gave show each loss.
#![tactic(auto)]

mod cut;
mod effect;
mod fault;
mod last_writes;
mod laws;
mod places;
mod procedures;
mod stability;
mod verifier;

pub use cut::{check_cuts, check_cuts_of_calls};
pub use effect::Effect;
pub use fault::{CutFault, VerifierFault};
pub use laws::{one_first_short_cut, one_first_verifier_fault, one_last_stable};
pub use places::{bindings, bindings_of_plan};
pub use stability::Stability;
pub use verifier::{check_verifiers, check_verifiers_of_calls, shown_verifier};
