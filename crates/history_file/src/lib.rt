//! What a recorder saw of an NFS server, and the file that holds it.
#![tactic(auto)]

mod event;
mod fault;
mod file;
mod items;
mod limits;
mod starting;
mod version;
mod writing;

pub use event::{Event, Message, SeenEvent, copy_events, lend_events};
pub use fault::FileFault;
pub use file::{SeenRecording, read_file};
pub use items::ItemFault;
pub use limits::{EVENT_LIMIT, HISTORY_LIMIT};
pub use starting::read_objects;
pub use tree_starts;
pub use version::{Version, version_of};
pub use writing::{WriteFault, write_history, write_history_from};
