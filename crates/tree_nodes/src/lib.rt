//! The nodes of a file tree by their objects' numbers: look-ups, changes and how to take them back, and the printed tree.
#![tactic(auto)]

mod bytes;
mod changes;
mod content;
mod copies;
mod edits;
mod lift;
mod node;
mod nodes;
mod print;
mod ranks;
mod same;
mod table;
mod undo;

pub use bytes::Bytes;
pub use content::{front, is_within_limit, reaches_end};
pub use node::{Content, File, Node};
pub use nodes::Nodes;
pub use tree_stores;
pub use undo::Undo;
