//! The stores below a file tree: values by their numbers, the names in a directory, and the bytes of a regular file.
#![tactic(auto)]

mod file_bytes;
pub mod names;
mod shared;
pub mod slots;

pub use file_bytes::{FileBytes, FileUndo};
pub use names::Names;
pub use nfs3_types;
pub use shared::{Copied, Shared};
pub use slots::{Pages, Slots};
