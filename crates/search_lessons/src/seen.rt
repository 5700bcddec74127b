//! What a reply shows of a file.

use nfs3_types::{Answer, FileHandle, FileType, NfsCall, NfsReply, Outcome};
use search_problem::FoundCall;

/// What a reply shows of a file's size.
#[derive(Clone, Copy)]
enum SizeSeen {
    Exactly(u64),
    /// Where the bytes that were read end, and whether the file ends there.
    Read { end: u64, is_end: bool },
}

/// What a reply shows of a file.
#[derive(Clone, Copy)]
pub struct Seen<'f> {
    /// The file's handle.
    pub file: &'f FileHandle,
    /// Where the bytes that it shows begin, in bytes from the file's start.
    pub offset: u64,
    /// The bytes that it shows; none where only the size is shown.
    pub bytes: &'f [u8],
    size: SizeSeen,
}

impl<'f> Seen<'f> {
    /// Of a call that reads a file's bytes or size.
    pub fn of(found: &'f FoundCall) -> Option<Seen<'f>> {
        match (&found.call, &found.outcome) {
            (NfsCall::Read(read), Outcome::Received(NfsReply::Read(Answer::Done(success)))) => {
                let bytes = success.bytes.as_slice();
                let end = read.offset.saturating_add(bytes.len() as u64);
                Some(Seen {
                    file: &read.file,
                    offset: read.offset,
                    bytes,
                    size: SizeSeen::Read {
                        end,
                        is_end: success.eof,
                    },
                })
            }
            (NfsCall::GetAttr(file), Outcome::Received(NfsReply::GetAttr(Answer::Done(attributes))))
                if attributes.file_type == FileType::Regular => Some(Seen {
                file,
                offset: 0,
                bytes: &[],
                size: SizeSeen::Exactly(attributes.size),
            }),
            _ => None,
        }
    }

    /// Whether a file of a size can be seen so.
    pub fn fits_size(&self, size: u64) -> bool {
        match self.size {
            SizeSeen::Exactly(seen) => size == seen,
            SizeSeen::Read { end, is_end } => {
                (self.bytes.is_empty() || size >= end) && is_end == (end >= size)
            }
        }
    }
}
