//! Paths that may lead to one file.

use std::fs;
use std::os::unix::fs::MetadataExt;
use std::rt::Files;

/// Whether two paths are the same, or lead to the same regular file, by whatever names: so a command writes nothing over what it reads.
pub fn are_one_file<R: Files>(rt: &R, one: &str, other: &str) -> bool {
    if one == other {
        return true;
    }
    match (fs::metadata(rt, one), fs::metadata(rt, other)) {
        (Ok(one), Ok(other)) => {
            // A file that is only made up has no number.
            one.is_file() && one.ino() != 0 && (one.dev(), one.ino()) == (other.dev(), other.ino())
        }
        _ => false,
    }
}
