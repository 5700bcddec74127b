//! The command `mend`: a history of what a recorder left on disk.
#![tactic(auto)]

mod mend;
mod mend_words;

pub use mend::run_mend;
pub use mend_words::{MendRequest, mend_request};
