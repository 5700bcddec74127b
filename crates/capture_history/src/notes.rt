//! What is told of lanes: where one ended before its connection did, and which records weren't taken.

use nfs_tap::NoteFault;
use std::fmt;

/// What is told of a lane.
#[derive(Clone, Copy, PartialEq, Eq)]
pub enum NoteKind {
    /// Bytes that the client sent weren't captured: the lane ends.
    CallGap,
    /// Bytes that the server sent weren't captured: the lane ends.
    ReplyGap,
    /// A header takes a record past the limit: the lane ends.
    RecordTooLong,
    /// A record isn't taken, since it can't follow the events before it.
    Refused(NoteFault),
    /// A record isn't taken, since the log is full.
    LogFull,
}

impl fmt::Display for NoteKind {
    fn fmt<W: fmt::Write>(&self, f: &mut fmt::Formatter<W>) -> fmt::Result {
        match self {
            NoteKind::CallGap => f.write_str("ends: bytes to the server weren't captured"),
            NoteKind::ReplyGap => f.write_str("ends: bytes to the client weren't captured"),
            NoteKind::RecordTooLong => f.write_str("ends: a record is too long"),
            NoteKind::Refused(fault) => write!(f, "record not taken: {fault}"),
            NoteKind::LogFull => f.write_str("record not taken: the log is full"),
        }
    }
}

/// What is told of a lane, and when it was seen, in nanoseconds since 1970.
#[derive(Clone, Copy, PartialEq, Eq)]
pub struct LaneNote {
    pub lane: u32,
    pub time: u64,
    pub kind: NoteKind,
}
