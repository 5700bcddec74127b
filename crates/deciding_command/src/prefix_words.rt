//! The words that ask for a prefix.

use clap::ArgMatches;

/// Which history's prefix is written, and where to.
#[derive(Clone, Copy)]
pub struct PrefixRequest<'a> {
    /// The path of the history.
    pub history: &'a str,
    /// How many of its first events are kept.
    pub events: u64,
    /// The path that the prefix is written to.
    pub prefix: &'a str,
}

/// What the words behind `prefix` ask for.
pub fn prefix_request<'a>(prefix: &ArgMatches<'a>) -> PrefixRequest<'a> {
    // The parser asks for all three.
    PrefixRequest {
        history: prefix.get_str("HISTORY").unwrap_or(""),
        events: prefix.get_one("EVENTS").unwrap_or(0),
        prefix: prefix.get_str("PREFIX").unwrap_or(""),
    }
}
