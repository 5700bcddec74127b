//! How much there may be, and how much there is.

use crate::refusal::{Cause, Stop};
use tree_starts::START_LIMIT;

/// How much there may be.
#[derive(Clone, Copy)]
pub struct Limits {
    /// The most objects.
    pub objects: usize,
    /// The most bytes that they take in a history file.
    pub bytes: u64,
}

impl Limits {
    /// Those of a history file.
    pub const OF_FILES: Limits = Limits {
        objects: START_LIMIT,
        bytes: 268_435_456,
    };
}

/// The bytes that an object takes in a history file beside its name and its contents: its directory and its kind.
const FIXED: u64 = 12;

/// The bytes that a string of so many takes: its length, and itself with what fills up its last word.
fn opaque(length: u64) -> u64 {
    (length.saturating_add(3) & !3).saturating_add(4)
}

/// The bytes that are left to what is still to be found.
#[derive(Clone, Copy)]
pub(crate) struct Room {
    bytes: u64,
}

impl Room {
    pub(crate) fn new(limits: Limits) -> Room {
        Room {
            bytes: limits.bytes,
        }
    }

    fn take(&mut self, bytes: u64) -> Result<(), Stop> {
        match self.bytes.checked_sub(bytes) {
            Some(left) => {
                self.bytes = left;
                Ok(())
            }
            None => Err(Stop::Refused(Cause::TooManyBytes)),
        }
    }

    /// Takes the room of an object with a name of so many bytes, but for its contents.
    pub(crate) fn take_name(&mut self, length: usize) -> Result<(), Stop> {
        self.take(opaque(length as u64).saturating_add(FIXED))
    }

    /// Takes the room of a file's bytes or a link's text.
    pub(crate) fn take_contents(&mut self, length: u64) -> Result<(), Stop> {
        self.take(opaque(length))
    }
}
