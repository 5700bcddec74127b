//! The words that ask for an explanation.

use clap::ArgMatches;
use deciding_command::{Effort, effort_of};

/// What is explained, and how much that may cost.
#[derive(Clone, Copy)]
pub struct ExplainRequest<'a> {
    /// The path of the history.
    pub history: &'a str,
    /// The path of the certificate, where there is one.
    pub certificate: Option<&'a str>,
    /// What it may cost to decide where there is none.
    pub effort: Effort,
    /// Whether what is said is printed as a JSON object.
    pub is_json: bool,
}

/// What the words behind `explain` ask for.
pub fn explain_request<'a>(explain: &ArgMatches<'a>) -> ExplainRequest<'a> {
    ExplainRequest {
        // The parser asks for it.
        history: explain.get_str("HISTORY").unwrap_or(""),
        certificate: explain.get_str("CERTIFICATE"),
        effort: effort_of(explain),
        is_json: explain.get_flag("json"),
    }
}
