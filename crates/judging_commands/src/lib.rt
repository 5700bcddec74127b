//! What the judging commands say: the verdict on a history and a certificate, and a search for a certificate, each as a line or a JSON
//! object, and an exit status.
#![tactic(auto)]

mod bundle;
mod input;
mod objects;
mod report;
mod reporting;
mod search;
mod teller;
mod words;

pub use input::run_bundle;
pub use objects::{judge_read_as_json, refused_as_json, report_read_as_json};
pub use report::{judge, judge_files, judge_read, verdict_report};
pub use reporting::{put_number, report_read};
pub use search::search_history;
pub use words::{SearchRequest, search_request};
