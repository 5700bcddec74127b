//! The words of a reason why a certificate is no witness of a history, for whoever has to mend one of the two.
#![tactic(auto)]

mod calls;
mod changes;
mod claims;
mod differences;
mod early;
mod faults;
mod handles;
mod illegal;
mod lists;
mod lost;
mod objects;
mod paths;
mod places;
mod scene;
mod sizes;
mod standing;
mod verifiers;
mod words;

pub use words::{call_text, plan_text, reason_text, unexplained_text};
