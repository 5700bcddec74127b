//! The file tree that the calls of NFS version 3 act on, and the tree after a call with its outcome.
#![tactic(auto)]

mod agreeing;
mod allowed;
mod create;
mod judged;
mod naming;
mod object_change;
mod rename;
mod setting;
mod start;
mod success;
mod told;
mod tree;
mod write;

pub use setting::TreeSetting;
pub use tree::FileTree;
pub use tree_answers;
pub use tree_answers::tree_handles::Binds;
pub use tree_nodes::Undo;
pub use tree_starts::{Profile, SeenStart, Start, StartFault, StartNode, StartObject};
