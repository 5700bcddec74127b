//! A log that the threads of a night share.

use nfs_tap::TapLog;
use night_lanes::{Notes, Unnoted};
use std::sync::{Mutex, Wait};

/// A log that threads share. Its lock is held for a note alone.
#[derive(Drop)]
pub struct SharedLog<'a, R> {
    pub rt: &'a R,
    pub log: &'a Mutex<TapLog>,
    /// How many bytes of the history's file the log doesn't know of.
    pub reserved: usize,
}

/// Whether a log has room for a message, beside this many bytes of its file that it doesn't know of.
fn has_room_beside(log: &TapLog, reserved: usize, message: &[u8]) -> bool {
    log.has_room(message.len().saturating_add(reserved))
}

impl<R: Wait> Notes for SharedLog<'_, R> {
    fn note_call(&mut self, lane: u32, message: &[u8]) -> Result<(), Unnoted> {
        let mut log = self.log.lock(self.rt);
        if !has_room_beside(&log, self.reserved, message) {
            return Err(Unnoted::NoRoom);
        }
        Notes::note_call(&mut *log, lane, message)
    }

    fn note_reply(&mut self, lane: u32, message: &[u8]) -> Result<(), Unnoted> {
        let mut log = self.log.lock(self.rt);
        if !has_room_beside(&log, self.reserved, message) {
            return Err(Unnoted::NoRoom);
        }
        Notes::note_reply(&mut *log, lane, message)
    }
}
