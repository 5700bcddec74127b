//! The fronts of bytes that are too many for a page.

use crate::escaping::escape;
use std::alloc::{AllocError, Global};

/// How many bytes of a page stand for one byte at most.
const WIDEST: usize = 6;

/// All of some bytes if there are no more than so many, or else a front of so many at most, which ends with a whole character.
fn front_of(bytes: &[u8], most: usize) -> &[u8] {
    for back in 0..4usize {
        let length = most.saturating_sub(back);
        match bytes.get(length) {
            None => return bytes,
            Some(byte) if (*byte & 0xc0) != 0x80 => return bytes.get(..length).unwrap_or(bytes),
            Some(_) => {}
        }
    }
    bytes.get(..most).unwrap_or(bytes)
}

/// A front of some bytes, or all of them, for which so many bytes stand in a page at most.
pub fn shown_front<'b>(
    alloc: Global,
    bytes: &'b [u8],
    most: usize,
) -> Result<&'b [u8], AllocError> {
    let front = front_of(bytes, most);
    let shown = escape(alloc, front)?;
    if shown.len() <= most {
        return Ok(front);
    }
    Ok(front_of(bytes, most / WIDEST))
}
