//! What the judging commands say, as JSON objects (RFC 8259), each on a line of its own.
#![tactic(auto)]

mod faults;
mod object;
mod searches;
mod verdicts;

pub use searches::{SearchMiss, found_line, miss_line};
pub use verdicts::{refusal_line, report_line, verdict_line};
