//! Whether a server was in health while it was recorded: what of a recording a right server can't have brought about.
#![tactic(auto)]

mod eras;
mod finding;
mod reading;
mod replies;
mod seconds;
mod unanswered;

pub use finding::{Finding, Findings, Recording, Watch, findings_of};
pub use reading::{Reading, reading_of};
pub use replies::Met;
pub use unanswered::{Unanswered, unanswered_in};
