//! The words that ask for the history of a capture of packets.

use clap::ArgMatches;

/// Which capture is read, and where its history goes.
#[derive(Clone, Copy)]
pub struct ImportRequest<'a> {
    /// The server's port of NFS.
    pub port: u16,
    /// The root's handle in hex, unless the capture has to tell it.
    pub root: Option<&'a str>,
    /// Whether it is an error that the capture lacks something.
    pub is_strict: bool,
    /// The path of the capture.
    pub capture: &'a str,
    /// The path of the history that is made of it.
    pub history: &'a str,
}

/// What the words behind `import` ask for.
pub fn import_request<'a>(import: &ArgMatches<'a>) -> ImportRequest<'a> {
    // The parser asks for the port and both paths.
    ImportRequest {
        port: import.get_one("port").unwrap_or(2_049),
        root: import.get_str("root"),
        is_strict: import.get_flag("strict"),
        capture: import.get_str("CAPTURE").unwrap_or(""),
        history: import.get_str("HISTORY").unwrap_or(""),
    }
}
