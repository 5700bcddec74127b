//! A history of an NFS server: what concurrent clients asked, what they were answered, and what that means.
#![tactic(auto)]

mod checking;
mod effects;
mod fault;
mod head;
mod history;
mod judging;
mod knowing;
mod laws;
mod lent;
mod limits;
mod matching;
mod reading;
mod recorded;
mod storage;

pub use checking::{LaneState, OpenCalls};
pub use fault::{CallFault, EventFault, HistoryFault, Which};
pub use history::History;
pub use history_file::tree_starts::{
    Profile, SeenNode, SeenObject, SeenStart, Start, StartFault, StartNode, StartObject,
};
pub use history_file::{Event, FileFault, Message, WriteFault, write_history, write_history_from};
pub use knowing::KnownCalls;
pub use laws::{
    a_file_begins_with_a_start, a_file_has_one_history, a_file_is_judged_by_its_history,
    bytes_are_a_history_or_at_fault, bytes_have_one_first_fault,
};
pub use lent::LentCalls;
pub use reading::{read_calls, read_history};
pub use recorded::{CallKind, Meaning, RecordedCall, find_call};
pub use storage::{StorageCall, commit_success, succeeded, write_success};
