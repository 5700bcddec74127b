//! Where calls and replies are noted.

ghost use Rattle.std.specs.Prelude.{◌≡◌, Option, Some, None, OnOk, OnErr};
ghost use Rattle.history_file.specs.Event.{Recording};
ghost use Rattle.history_file.specs.Event.Event.{call, reply};
ghost use Rattle.night_lanes.specs.Noting.{Gains, Stays};

use nfs_tap::{NoteFault, TapLog};
use std::alloc::AllocError;

/// Why a message isn't noted.
#[derive(Clone, Copy)]
pub enum Unnoted {
    /// The log refuses it. The fault is never `NoMemory`.
    Refused(NoteFault),
    /// The log has no room for it within the limits of a history's file, or a record hasn't.
    NoRoom,
    /// Memory ran out.
    NoMemory,
}

impl From<NoteFault> for Unnoted {
    fn from(fault: NoteFault) -> Unnoted {
        match fault {
            NoteFault::NoMemory => Unnoted::NoMemory,
            fault => Unnoted::Refused(fault),
        }
    }
}

impl From<AllocError> for Unnoted {
    fn from(_error: AllocError) -> Unnoted {
        Unnoted::NoMemory
    }
}

/// Where calls and replies are noted. It may tell what it holds.
pub trait Notes {
    // What it holds, where that is known.
    ghost recording: { Self → Option Recording } = { λ _. None };

    /// Notes that a client sent a call.
    fn note_call(&mut self, lane: u32, message: &[u8]) -> Result<(), Unnoted>
        ensures noted { OnOk result (Gains (recording self.old) (recording self.new) (call lane message.now)) }
        ensures kept { OnErr result (Stays (recording self.old) (recording self.new)) };

    /// Notes that a client got a reply.
    fn note_reply(&mut self, lane: u32, message: &[u8]) -> Result<(), Unnoted>
        ensures noted { OnOk result (Gains (recording self.old) (recording self.new) (reply lane message.now)) }
        ensures kept { OnErr result (Stays (recording self.old) (recording self.new)) };
}

impl Notes for TapLog {
    ghost recording = { λ log. Some log };

    fn note_call(&mut self, lane: u32, message: &[u8]) -> Result<(), Unnoted> {
        if !self.has_room(message.len()) {
            return Err(Unnoted::NoRoom);
        }
        TapLog::note_call(self, lane, message)?;
        Ok(())
    }

    fn note_reply(&mut self, lane: u32, message: &[u8]) -> Result<(), Unnoted> {
        if !self.has_room(message.len()) {
            return Err(Unnoted::NoRoom);
        }
        TapLog::note_reply(self, lane, message)?;
        Ok(())
    }
}
