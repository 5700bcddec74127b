//! What a packet capture says of an NFS server: the calls and replies of its connections, as a recorder's log.
#![tactic(auto)]

mod capture;
mod connection;
mod cursor;
mod direction;
mod fault;
mod found;
mod gathering;
mod import;
mod lane;
mod mount;
mod notes;
mod passed;
mod stream;
mod way;

pub use capture::{CaptureLog, import_capture};
pub use connection::Connection;
pub use direction::{Direction, Mark, Payload};
pub use fault::ImportFault;
pub use found::{Found, FoundKind};
pub use gathering::{Gathered, gather};
pub use import::{Import, import_lanes};
pub use lane::LaneEnd;
pub use notes::{LaneNote, NoteKind};
pub use passed::PassedCounts;
