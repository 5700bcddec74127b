//! A server's journal: the device that keeps whole records over crashes, the records of the calls that changed the server's tree,
//! and the tree that is rebuilt from them.
#![tactic(auto)]

mod change;
mod device;
mod journal_record;
mod naming;
mod parts;
mod rebuild_fault;
mod rebuilding;
mod record_fault;
mod simulated;
mod taking;
mod text;

pub use change::{Change, read_record};
pub use device::{DevFault, JournalDevice};
pub use journal_record::Record;
pub use naming::{binds_at_first, object_made, tree_at_first};
pub use parts::is_inside;
pub use rebuild_fault::RebuildFault;
pub use rebuilding::{rebuild, rebuild_from};
pub use record_fault::RecordFault;
pub use simulated::SimDevice;
pub use text::{JournalRecord, put_record};
