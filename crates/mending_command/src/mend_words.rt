//! The words that ask for the history of what a recorder left on disk.

use clap::ArgMatches;

/// What is mended, and where to.
#[derive(Clone, Copy)]
pub struct MendRequest<'a> {
    /// The path of what a recorder left.
    pub part: &'a str,
    /// The path of the history that is made of it.
    pub history: &'a str,
}

/// What the words behind `mend` ask for.
pub fn mend_request<'a>(mend: &ArgMatches<'a>) -> MendRequest<'a> {
    // The parser asks for both paths.
    MendRequest {
        part: mend.get_str("PART").unwrap_or(""),
        history: mend.get_str("HISTORY").unwrap_or(""),
    }
}
