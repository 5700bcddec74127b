//! Messages that are written item by item (RFC 4506).

ghost use Rattle.std.specs.Prelude.{◌<◌, ◌^◌, length};

use nfs3_types::Procedure;
use std::alloc::{AllocError, Global};
use xdr_records::{RECORD_LIMIT, frame, put_opaque, put_u32, put_u64};

/// A message that is written item by item. It remembers if memory ran out.
#[derive(Drop)]
pub(crate) struct Message {
    bytes: Vec<u8>,
    is_whole: bool,
}

/// At most 2,000,000 of the bytes.
fn short(bytes: &[u8]) -> &[u8]
    ensures { length result.now < 2 ^ 32 }
{
    &bytes[..bytes.len().min(2_000_000)]
}

/// The words of zero after a failure's status (RFC 1813, section 3.3): absent attributes, before and after.
fn absent_words(procedure: Procedure) -> u32 {
    match procedure {
        Procedure::GetAttr => 0,
        Procedure::Lookup
        | Procedure::ReadLink
        | Procedure::Read
        | Procedure::ReadDir
        | Procedure::ReadDirPlus => 1,
        Procedure::Rename => 4,
        _ => 2,
    }
}

/// A message as a record of one fragment.
pub(crate) fn record_of(alloc: Global, message: &[u8]) -> Result<Vec<u8>, AllocError> {
    if message.len() > RECORD_LIMIT {
        return Err(AllocError);
    }
    frame(alloc, message)
}

impl Message {
    /// An empty one.
    pub(crate) fn new(alloc: Global) -> Message {
        Message {
            bytes: Vec::new(alloc),
            is_whole: true,
        }
    }

    /// Keeps whether an item was written.
    pub(super) fn keep(&mut self, written: Result<(), AllocError>) {
        if written.is_err() {
            self.is_whole = false;
        }
    }

    /// How many bytes were written.
    pub(crate) fn len(&self) -> usize {
        self.bytes.len()
    }

    pub(crate) fn word(&mut self, word: u32) {
        let written = put_u32(&mut self.bytes, word);
        self.keep(written);
    }

    pub(crate) fn words(&mut self, words: &[u32]) {
        for word in words {
            self.word(*word);
        }
    }

    /// Two words.
    pub(crate) fn long(&mut self, long: u64) {
        let written = put_u64(&mut self.bytes, long);
        self.keep(written);
    }

    /// Bytes after their length.
    pub(crate) fn opaque(&mut self, bytes: &[u8]) {
        let written = put_opaque(&mut self.bytes, short(bytes));
        self.keep(written);
    }

    /// A failure of this status, without attributes.
    pub(crate) fn failure(&mut self, procedure: Procedure, status: u32) {
        self.word(status);
        for _ in 0..absent_words(procedure) {
            self.word(0);
        }
    }

    /// Puts a word in place of the four bytes at an offset.
    pub(crate) fn change(&mut self, offset: usize, word: u32) {
        for (index, byte) in word.to_be_bytes().as_slice().iter().enumerate() {
            if let Some(old) = self.bytes.get_mut(offset.saturating_add(index)) {
                *old = *byte;
            }
        }
    }

    /// The whole message.
    pub(crate) fn finish(self) -> Result<Vec<u8>, AllocError> {
        let Message { bytes, is_whole } = self;
        if is_whole { Ok(bytes) } else { Err(AllocError) }
    }
}
