//! Which events of a history touch an object: by its handle, and by the names that it has.

use crate::seen_calls::SeenCalls;
use history_file::FileFault;
use history_lines::{BegunFile, SoughtHandle};
use indexmap::IndexSet;
use std::alloc::Global;

/// The events that touch an object.
#[derive(Drop)]
pub(crate) struct TouchedEvents {
    numbers: IndexSet<u64>,
}

impl TouchedEvents {
    /// Whether the event of a line is among them: that of the number with which the line begins. Lines of a start begin with none.
    pub(crate) fn has_line(&self, line: &[u8]) -> bool {
        match number_at(line) {
            Some(number) => self.numbers.contains(&number),
            None => false,
        }
    }
}

/// The number that is the first word of a text.
fn number_at(text: &[u8]) -> Option<u64> {
    let mut number: u64 = 0;
    for byte in text {
        match *byte {
            b'0'..=b'9' => {
                number = number
                    .checked_mul(10)?
                    .checked_add(u64::from(*byte - b'0'))?;
            }
            b' ' => return Some(number),
            _ => return None,
        }
    }
    None
}

/// The calls of a history file, up to its first fault, that touch the object with this handle, and the replies to them.
pub(crate) fn touched_events(
    alloc: Global,
    bytes: &[u8],
    sought: SoughtHandle,
) -> Result<TouchedEvents, FileFault> {
    let BegunFile {
        start,
        profile: _,
        unread,
    } = BegunFile::of_file(alloc, bytes)?;
    drop(start);
    let mut unread = unread;
    let mut calls = SeenCalls::new(alloc, sought);
    for _ in 0..unread.left() {
        if unread.left() == 0 {
            break;
        }
        let Ok(event) = unread.next() else {
            break;
        };
        calls.take_event(unread.read(), &event)?;
    }
    Ok(TouchedEvents {
        numbers: calls.touching()?,
    })
}
