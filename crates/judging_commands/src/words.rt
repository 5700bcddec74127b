//! The words that ask for a certificate.

use clap::ArgMatches;

/// Which history's certificate is searched, and how hard.
#[derive(Clone, Copy)]
pub struct SearchRequest<'a> {
    /// The path of the history.
    pub history: &'a str,
    /// From 1 to 64.
    pub workers: u32,
    /// How many branches each worker takes at most, from 1 to 10,000,000.
    pub turns: u64,
    /// After how many seconds it ends, from 1 to 1,000,000, if that is limited.
    pub seconds: Option<u32>,
    /// Whether nothing is to be said while the search runs.
    pub is_quiet: bool,
    /// Whether what is found is printed as a JSON object.
    pub is_json: bool,
}

/// The most workers, and the most branches that each may take.
pub(crate) const MOST_WORKERS: u32 = 64;

const MOST_TURNS: u64 = 10_000_000;

/// How many workers there are where the words don't say.
const WORKERS: u32 = 4;

/// What the words behind `search` ask for.
pub fn search_request<'a>(search: &ArgMatches<'a>) -> SearchRequest<'a> {
    SearchRequest {
        // The parser asks for it.
        history: search.get_str("HISTORY").unwrap_or(""),
        workers: search.get_one("workers").unwrap_or(WORKERS),
        turns: search.get_one("turns").unwrap_or(MOST_TURNS),
        seconds: search.get_one("seconds"),
        is_quiet: search.get_flag("quiet"),
        is_json: search.get_flag("json"),
    }
}
