//! What is said on standard error of files, beside the answer.

use program_streams::Report;
use std::str;

/// Says what a file isn't, where it doesn't begin as a history does: it is refused for `BadMagic`.
pub(crate) fn tell_front<R: Eprint>(rt: &R, path: &str, bytes: &[u8]) {
    if !bytes.starts_with(b"NFSHIST1") && !bytes.starts_with(b"NFSHIST2") {
        let _ = eprintln!(rt;
            "nfsbench: {path}: this isn't a history file of nfsbench: a history begins with NFSHIST1 or NFSHIST2; a packet capture goes to nfsbench import"
        );
    }
}

/// Whether the text of a certificate places no call. It has a line before its places.
fn places_nothing(text: &[u8]) -> bool {
    match str::from_utf8(text) {
        Ok(text) => !text.contains("\nplace "),
        Err(_) => false,
    }
}

/// Says that nothing was judged, where a yes is about a certificate that places no call: each judged call that was answered has a place in one
/// that gets a yes.
pub(crate) fn tell_of_nothing<R: Eprint>(
    rt: &R,
    history: &str,
    certificate: Option<&[u8]>,
    report: &Report,
) {
    if report.status() != 0 {
        return;
    }
    if matches!(certificate, Some(text) if places_nothing(text)) {
        let _ = eprintln!(rt;
            "nfsbench: {history}: nothing was judged: no call of a judged procedure was answered"
        );
    }
}
