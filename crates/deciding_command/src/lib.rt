//! The commands `nfsbench decide`, whether a history has any certificate at all, and `nfsbench prefix`, a history cut behind an event.
#![tactic(auto)]

mod deciding;
mod file_decision;
mod fronts;
mod hints;
mod prefix_words;
mod prefixing;
mod reached;
mod telling;
mod within_time;
mod words;

pub use deciding::decide_history;
pub use file_decision::{FileDecision, decide_file};
pub use prefix_words::{PrefixRequest, prefix_request};
pub use prefixing::prefix_history;
pub use reached::{Orders, Reached, Unsettled, reached_text};
pub use telling::{reason_line, report_of};
pub use within_time::{Effort, is_watched};
pub use words::{DecideRequest, decide_request, effort_of};
