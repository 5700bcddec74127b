//! The words that ask for the events of a history.

use crate::looking::procedure_named;
use clap::ArgMatches;
use history_lines::Selection;

/// Which file's events are shown, which of them, and how.
#[derive(Clone, Copy)]
pub struct ShowRequest<'a> {
    /// The path of the history.
    pub history: &'a str,
    /// The path of a certificate, by which the history is judged.
    pub certificate: Option<&'a str>,
    pub selection: Selection,
    /// The handle that is looked for, in hexadecimal, or `#` and its short form.
    pub handle: Option<&'a str>,
    /// The name that is looked for, as lines of events write it.
    pub name: Option<&'a str>,
    /// Whether handles are written by their short form.
    pub has_short_handles: bool,
}

/// What the words after `show` ask for, if the procedure that they name is one of NFS version 3.
pub fn show_request<'a>(show: &ArgMatches<'a>) -> Option<ShowRequest<'a>> {
    let procedure = match show.get_str("procedure") {
        Some(name) => Some(procedure_named(name)?),
        None => None,
    };
    Some(ShowRequest {
        // The parser asks for it.
        history: show.get_str("HISTORY").unwrap_or(""),
        certificate: show.get_str("CERTIFICATE"),
        selection: Selection {
            from: show.get_one("from").unwrap_or(1),
            to: show.get_one("to").unwrap_or(u64::MAX),
            call: show.get_one("call"),
            lane: show.get_one("lane"),
            procedure,
        },
        handle: show.get_str("handle"),
        name: show.get_str("name"),
        has_short_handles: show.get_flag("short"),
    })
}
