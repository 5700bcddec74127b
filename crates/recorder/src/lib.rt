//! The book of a journal server: it records the calls and replies as a history, sets the serial order, keeps the journal on a device, and
//! gives its own certificate.

#![tactic(auto)]

mod book;

pub use book::Book;
pub use book_ledger::{
    AnswerFault, BeginFault, CloseFault, CrashFault, FlushFault, PlaceFault, SpelledReply, Token,
};
pub use file_tree::{Profile, Start, Undo};
pub use journal::{
    DevFault, JournalDevice, RebuildFault, Record, SimDevice, rebuild, rebuild_from,
};
