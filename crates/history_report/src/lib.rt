//! What a history comes to in numbers: its calls and how they came out, and what the crashes of a plan took away.
#![tactic(auto)]

mod counting;
mod kind;
mod losing;

pub use counting::{HistoryNumbers, report_of, report_of_calls};
pub use losing::{lost_of, lost_of_calls};
