//! Where the records of a stream stand, and which packets brought them.

use crate::stream::Part;

/// Goes through a stream, record by record.
#[derive(Clone, Copy)]
pub struct Cursor<'a> {
    /// What it has ahead.
    rest: &'a [u8],
    /// How much is behind it.
    at: usize,
    parts: &'a [Part],
    /// In which part it stands.
    index: usize,
}

impl<'a> Cursor<'a> {
    /// At the front of a stream that was put together of these parts.
    pub fn new(bytes: &'a [u8], parts: &'a [Part]) -> Cursor<'a> {
        Cursor {
            rest: bytes,
            at: 0,
            parts,
            index: 0,
        }
    }

    /// The part in which the byte at a place stands, which is no less than those that were asked for before.
    fn part_at(&mut self, at: usize) -> Option<Part> {
        let parts = self.parts;
        for index in self.index..parts.len() {
            self.index = index;
            if at < parts[index].end {
                return Some(parts[index]);
            }
        }
        None
    }

    /// The packet that brought the next byte.
    pub fn first(&mut self) -> u64 {
        match self.part_at(self.at) {
            Some(part) => part.packet,
            None => 0,
        }
    }

    /// The packet with which the next byte was known, and all ahead of it.
    pub fn known(&mut self) -> u64 {
        match self.part_at(self.at) {
            Some(part) => part.known,
            None => 0,
        }
    }

    /// Goes behind the record that stands here, and gives the packet with which its last byte was known.
    pub fn pass(&mut self) -> u64 {
        let size = record_size(self.rest);
        let behind = self.at.saturating_add(size);
        let known = match self.part_at(behind.saturating_sub(1)) {
            Some(part) => part.known,
            None => 0,
        };
        self.at = behind;
        self.rest = &self.rest[size.min(self.rest.len())..];
        known
    }
}

/// How many of the bytes are the record at the front, which is whole: its fragments, each behind a header whose highest bit marks the
/// last, and whose other bits say how many bytes follow (RFC 5531, section 11).
fn record_size(bytes: &[u8]) -> usize {
    let mut rest = bytes;
    for _ in 0..bytes.len() {
        let [a, b, c, d, body @ ..] = rest else {
            break;
        };
        let size = u32::from_be_bytes([*a % 128, *b, *c, *d]) as usize;
        if body.len() < size {
            break;
        }
        rest = &body[size..];
        if *a >= 128 {
            break;
        }
    }
    bytes.len().saturating_sub(rest.len())
}
