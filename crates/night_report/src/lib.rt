//! What became of a night, as texts that are kept beside its history: for programs (JSON), for what runs tests (JUnit's XML), and
//! for whoever has to look at a red night.
#![tactic(auto)]

mod coverage;
mod escaping;
mod explaining;
mod hints;
mod json;
mod junit;
mod report;

pub use explaining::explanation;
pub use hints::rights_hint;
pub use json::{json_line, report_json};
pub use junit::junit_xml;
pub use report::{Finding, NightReport, Numbers, Request};
