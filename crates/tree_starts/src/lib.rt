//! What a server held before the first event of a history, and how strictly its replies are judged.
#![tactic(auto)]

mod fault;
mod keys;
mod names;
mod object;
mod profile;
mod seen;
mod start;
mod table;

pub use fault::StartFault;
pub use names::{is_dot, is_plain, is_two_dots};
pub use nfs3_types;
pub use object::{START_LIMIT, StartNode, StartObject, TEXT_LIMIT};
pub use profile::Profile;
pub use seen::{SeenNode, SeenObject, SeenStart};
pub use start::Start;
pub use table::StartTable;
