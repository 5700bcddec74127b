//! What is said of a night: its history, whether some order explains it, and whether the server was in health.
#![tactic(auto)]

mod facts;
mod judging;
mod reasons;
mod telling;
mod verdict;
mod writing;

pub use facts::{LeftAside, NightEnd, NightFacts, is_of_server};
pub use judging::{Answered, Judgement, judge_night};
pub use reasons::{Reasons, reasons_of};
pub use telling::verdict_report;
pub use verdict::{Cause, Doubt, NightVerdict};
pub use writing::night_history;
